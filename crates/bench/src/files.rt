// The run of a load file, written as a schedule file: slots go straight to the output as they are
// made, and the load is checked once, as it is read.
ghost use Rattle.bench.specs.Calls.{WriteRun};

use crate::boards::{fill_board, start_row, steps_of};
use crate::state::fresh;
use load::MOST_ROWS;
use load_file::read_load;
use plan::{Board, next_start};
use refusals::Refusal;
use schedule_file::{HEADER_SIZE, SLOT_SIZE, check_room, head_record, slot_record};
use words::overwrite;

// Reads a load file, runs its load from fresh to Done, and writes the schedule file of the run. A
// file that is out of order is refused with its own number; then an output that is too short,
// with 9. A refusal alters no byte, and bytes past the file stay. The load that was read stands in
// this function alone, and is lent: handed on by value it would be copied, which takes more of the
// stack than a host may have.
pub fn write_run(bytes: &[u8], out: &mut [u8]) -> Result<(), Refusal>
    ensures { WriteRun bytes.now out.old result out.new }
{
    let load = read_load(bytes)?;
    let rows = load.rows as usize;
    let mut board = Board::default();
    let mut classes = [0; MOST_ROWS];
    fill_board(&load, &fresh(), &mut board, &mut classes);
    let steps = steps_of(&board, rows);
    check_room(steps, out.len())?;
    overwrite(out, 0, &head_record(steps));
    let mut clock: u32 = 0;
    // Counted, as k says where the record of the slot stands in the output.
    for k in 0..steps {
        let next = next_start(&board, &classes, clock, rows);
        let i = next.row;
        let row = load.row[i];
        let started = start_row(row, i, next.moment, &mut board);
        let slot = started.slot;
        let record = slot_record(slot.row, slot.step, slot.start);
        overwrite(out, HEADER_SIZE + SLOT_SIZE * k, &record);
        clock = started.end;
    }
    Ok(())
}
