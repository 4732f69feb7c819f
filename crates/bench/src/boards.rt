// The board of a load and its bench, and the classes of the rows: every row looked up once; and a
// row looked up anew at a start.
ghost use Rattle.std.specs.Prelude.{◌≡◌, true, ℕ, ◌≤◌, ◌<◌, Ok};
ghost use Rattle.counting.specs.Sums.{sum_to};
ghost use Rattle.counting.specs.Lists.{member_at};
ghost use Rattle.load.specs.Load.{most_rows, most_steps};
ghost use Rattle.load.specs.Check.{check_load};
ghost use Rattle.load.specs.View.{view_of};
ghost use Rattle.rules.specs.State.{shaped};
ghost use Rattle.bench.specs.Held.{state_of};
ghost use Rattle.bench.specs.inner.Boards.{Shows, ClassesOf};
ghost use Rattle.bench.specs.inner.Moves.{slot_of};
ghost use Rattle.bench.specs.inner.Running.{CanStart, RowStarted};

use crate::state::end_of;
use crate::{Bench, Started};
use load::{Load, MOST_ROWS, Row};
use plan::{Board, look_of, opening_after, put_look};
use rules::Slot;

// Makes the board of a load that was checked, for a bench that has its shape: looks up every row,
// and puts each class in the row's place. The board is lent, as one that is given back is copied.
pub fn fill_board(load: &Load, bench: &Bench, board: &mut Board, classes: &mut [u8; MOST_ROWS])
    requires load_value { check_load load.now ≡ Ok tt }
    requires bench_value { shaped (view_of load.now) (state_of bench.now) ≡ true }
    ensures shows { Shows load.now bench.now board.new }
    ensures classes_of { ClassesOf load.now load.now.rows classes.new }
{
    *board = Board::default();
    let rows = load.rows as usize;
    for (i, row) in load.row[..rows].iter().enumerate() {
        let look = look_of(*row, bench.finished[i], bench.end[i], bench.opening[i]);
        put_look(board, i, look);
        classes[i] = row.class;
    }
}

// Gives the steps of the first rows together.
pub fn steps_of(board: &Board, rows: usize) -> usize
    requires { (rows ≤ most_rows)
        × ((i : ℕ) → i < rows → member_at board.now.steps i ≤ most_steps) }
    ensures { result ≡ sum_to (member_at board.now.steps) rows }
{
    let mut sum: usize = 0;
    for steps in &board.steps[..rows] {
        sum += *steps as usize;
    }
    sum
}

// Gives the next step of row i, which has finished so many, as a slot that starts at a moment: rows
// and steps are shown counted from 1.
pub fn slot_of(i: usize, finished: u8, moment: u32) -> Slot
    requires { (i < most_rows) × (finished < most_steps) }
    ensures { result ≡ slot_of i finished moment }
{
    Slot {
        row: i as u8 + 1,
        step: finished + 1,
        start: moment,
    }
}

// Starts the next step of row i at a moment, and puts what is looked up of the row, once the step
// is over, in its places of the board.
pub fn start_row(row: Row, i: usize, moment: u32, board: &mut Board) -> Started
    requires { CanStart board.old moment i }
    ensures { RowStarted row board.old i moment result board.new }
{
    let finished = board.finished[i];
    let slot = slot_of(i, finished, moment);
    let opening = opening_after(board.stays[i], board.opened[i], board.opening[i], moment);
    let end = end_of(moment, board.cost[i]);
    let next = look_of(row, finished + 1, end, opening);
    put_look(board, i, next);
    Started { slot, end }
}
