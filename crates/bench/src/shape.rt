// The shape of a bench state (10): the clock, each row of the load, and the places of the rows that
// the load does not have.
ghost use Rattle.std.specs.Prelude.{◌≡◌, cond, eqb, ltb, Ok};
ghost use Rattle.counting.specs.Sums.{all_to, all_from};
ghost use Rattle.load.specs.Load.{most_rows};
ghost use Rattle.load.specs.Check.{check_load};
ghost use Rattle.load.specs.View.{view_of};
ghost use Rattle.rules.specs.State.{row_shaped, row_unused, shaped};
ghost use Rattle.bench.specs.Held.{state_of};
ghost use Rattle.plan.specs.Looks.{view_alike, state_alike};

use crate::Bench;
use load::{LAST_MOMENT, Load, MOST_ROWS, Row};
use plan::open_window;

// Gives the latest end of a row: the clock, and 0 if nothing is finished.
fn latest_end(clock: u32, finished: u8) -> u32
    ensures { result ≡ cond (eqb finished 0) 0 clock }
{
    if finished == 0 { 0 } else { clock }
}

// Gives the latest opening of a row: its end while a window is open, else 0.
fn latest_opening(finished: u8, last: u8, end: u32) -> u32
    ensures { result ≡ cond (ltb finished last) end 0 }
{
    if finished < last { end } else { 0 }
}

// Says whether a row's numbers have the row's shape.
fn row_shaped(row: Row, clock: u32, finished: u8, end: u32, opening: u32) -> bool
    ensures { result ≡ row_shaped (view_alike row) (state_alike clock finished end opening) 0 }
{
    if row.steps < finished {
        return false;
    }
    if latest_end(clock, finished) < end {
        return false;
    }
    let window = open_window(row, finished);
    opening <= latest_opening(finished, window.last, end)
}

// Says whether every row of a load that was checked has its shape.
fn rows_shaped(load: Load, bench: Bench) -> bool
    requires { check_load load ≡ Ok tt }
    ensures { result ≡ all_to (row_shaped (view_of load) (state_of bench)) load.rows }
{
    let rows = load.rows as usize;
    for (i, row) in load.row[..rows].iter().enumerate() {
        let fits = row_shaped(
            *row,
            bench.clock,
            bench.finished[i],
            bench.end[i],
            bench.opening[i],
        );
        if !fits {
            return false;
        }
    }
    true
}

// Says whether the places of a row are 0.
fn is_unused(finished: u8, end: u32, opening: u32) -> bool
    ensures { result ≡ row_unused (state_alike 0 finished end opening) 0 }
{
    if finished != 0 {
        return false;
    }
    if end != 0 {
        return false;
    }
    opening == 0
}

// Says whether the places from one row on are 0.
fn unused_from(bench: Bench, rows: usize) -> bool
    ensures { result ≡ all_from (row_unused (state_of bench)) rows most_rows }
{
    // Counted, as three arrays are read at one place.
    for i in rows..MOST_ROWS {
        if !is_unused(bench.finished[i], bench.end[i], bench.opening[i]) {
            return false;
        }
    }
    true
}

// Says whether a bench state has the shape of a load that was checked.
pub fn has_shape(load: Load, bench: Bench) -> bool
    requires { check_load load ≡ Ok tt }
    ensures { result ≡ shaped (view_of load) (state_of bench) }
{
    if LAST_MOMENT < bench.clock {
        return false;
    }
    if !rows_shaped(load, bench) {
        return false;
    }
    unused_from(bench, load.rows as usize)
}
