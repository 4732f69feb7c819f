// What a schedule file is made of, and what it is refused for: the head, the record of a slot, and
// whether there is room.
ghost use Rattle.schedule_file.specs.Calls.{CheckRoom, HeadRecord, SlotRecord};

use refusals::Refusal;
use schedule::MOST_SLOTS;
use words::{bytes16, bytes32};

// The marks.
const HEADER_MARK: [u8; 2] = [0x53, 0x43];

const SLOT_MARK: [u8; 2] = [0x53, 0x4C];

// How many bytes a record has, its mark counted.
pub const HEADER_SIZE: usize = 4;

pub const SLOT_SIZE: usize = 8;

// How many numbers the header's count has room for.
const COUNTS: usize = 65536;

// Gives the head of the file of n slots; of a number that its count has no room for, the two lowest
// bytes. It refuses nothing.
pub fn head_record(n: usize) -> [u8; HEADER_SIZE]
    ensures { HeadRecord n result }
{
    let count = bytes16((n % COUNTS) as u16);
    [HEADER_MARK[0], HEADER_MARK[1], count[0], count[1]]
}

// Gives the record of the slot with these numbers, whatever they are. It refuses nothing.
pub fn slot_record(row: u8, step: u8, start: u32) -> [u8; SLOT_SIZE]
    ensures { SlotRecord row step start result }
{
    let number = bytes32(start);
    [
        SLOT_MARK[0],
        SLOT_MARK[1],
        row,
        step,
        number[0],
        number[1],
        number[2],
        number[3],
    ]
}

// Gives what the writing of n slots into so many bytes is refused for: 3 for more than 192, then 9.
pub fn check_room(n: usize, room: usize) -> Result<(), Refusal>
    ensures { CheckRoom n room result }
{
    if MOST_SLOTS < n {
        return Err(Refusal::OutOfRange);
    }
    if room < HEADER_SIZE + SLOT_SIZE * n {
        return Err(Refusal::OutputShort);
    }
    Ok(())
}
