// The questions S and s: slots, their numbers unchecked, and for s a room before them. They are
// answered by `schedule` and the number of what the slots' writing finds; where that is 0, in
// hexadecimal digits by the schedule file (S) or by all the room (s).
use crate::input::{filled, front, read_things};
use crate::rooms::{BEFORE, MOST_ROOM, Room};
use crate::slots::{SLOT_SIZE, SLOTS_SIZE, slots_from};
use crate::written::write_written;
use schedule_file::write_array;
use std::io::{Read, Result, Write};

// Reads and answers the question. Says no where it is cut short, the slots too many, or the room
// too large. The file of slots has a head of four bytes, and eight for each slot.
pub fn answer(room: Option<Room>, input: &mut impl Read, output: &mut impl Write) -> Result<bool> {
    let Some(room) = room else {
        return Ok(false);
    };
    let mut slots = [0u8; SLOTS_SIZE];
    let Some(slot_count) = read_things(input, &mut slots, SLOT_SIZE) else {
        return Ok(false);
    };
    let mut bytes = filled::<MOST_ROOM>(BEFORE);
    let Some(lent) = bytes.get_mut(..room.size_or(MOST_ROOM)) else {
        return Ok(false);
    };
    let found = write_array(slots_from(&slots), slot_count, lent);
    let n = room.size_or(4 + 8 * slot_count);
    write_written(output, b"schedule ", found, front(&bytes, n))?;
    Ok(true)
}
