// The run: the starts of the moves from fresh to Done, each step at full cost. The load is checked
// and looked up once; a start renews one row of the board.
ghost use Rattle.std.specs.Prelude.{◌≡◌, Ok};
ghost use Rattle.load.specs.Check.{check_load};
ghost use Rattle.load.specs.View.{view_of};
ghost use Rattle.rules.specs.Run.{schedule};
ghost use Rattle.bench.specs.Runs.{ran_with};
ghost use Rattle.bench.specs.Calls.{Runs};

use crate::Ran;
use crate::boards::{fill_board, start_row, steps_of};
use crate::state::fresh;
use load::{Load, MOST_ROWS, check_load};
use plan::{Board, next_start};
use refusals::Refusal;
use rules::{SLOT_PLACES, Slot};

// What stands in a place that has no slot.
const NO_SLOT: Slot = Slot {
    row: 0,
    step: 0,
    start: 0,
};

// Runs a load that was checked: goes from start to start until every step has its slot.
fn run_checked(load: Load) -> Ran
    requires { check_load load ≡ Ok tt }
    ensures { result ≡ ran_with (schedule (view_of load)) }
{
    let rows = load.rows as usize;
    let mut board = Board::default();
    let mut classes = [0; MOST_ROWS];
    fill_board(&load, &fresh(), &mut board, &mut classes);
    let steps = steps_of(&board, rows);
    let mut clock: u32 = 0;
    let mut slots = [NO_SLOT; SLOT_PLACES];
    for k in 0..steps {
        let next = next_start(&board, &classes, clock, rows);
        let i = next.row;
        let row = load.row[i];
        let started = start_row(row, i, next.moment, &mut board);
        let slot = started.slot;
        slots[k] = slot;
        clock = started.end;
    }
    Ran {
        count: steps,
        slots,
    }
}

// Runs a load from fresh to Done. A load that is out of order is refused with its number.
pub fn run(load: Load) -> Result<Ran, Refusal>
    ensures { Runs load result }
{
    check_load(load)?;
    Ok(run_checked(load))
}
