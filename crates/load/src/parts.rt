// The parts of a load that stand at a place, how many steps there are, and the parts that are all
// zero. Every call is total: past the last place it meets a part of zeros.
ghost use Rattle.load.specs.Calls.{StepAt, WindowAt, RowAt, StepsIn, ZeroRow, ZeroLoad};

use crate::ranges::MOST_ROWS;
use crate::{Load, Row, Step, Window};

// Gives the step at a place of a row, and past the last place a step of zeros.
// docs/BELIEVE.md names step_at, window_at and row_at, so all stay: each is one line.
pub fn step_at(row: Row, j: usize) -> Step
    ensures { StepAt row j result }
{
    row.step.get(j).copied().unwrap_or_default()
}

// Gives the window at a place of a row, and past the last place a window of zeros.
pub fn window_at(row: Row, k: usize) -> Window
    ensures { WindowAt row k result }
{
    row.window.get(k).copied().unwrap_or_default()
}

// Gives the row of zeros, which an unused place of a load holds.
#[tactic(auto, unfolding(crate::specs::Load::zero_row))]
pub fn zero_row() -> Row
    ensures { ZeroRow result }
{
    Row::default()
}

// Gives the row at a place of a load, and past the last place the row of zeros.
#[tactic(auto, unfolding(crate::specs::Load::zero_row))]
pub fn row_at(load: Load, i: usize) -> Row
    ensures { RowAt load i result }
{
    load.row.get(i).copied().unwrap_or_default()
}

// Gives how many steps a load has.
pub fn steps_in(load: Load) -> u16
    ensures { StepsIn load result }
{
    let mut steps: u16 = 0;
    // Counted, as row_at gives the rows past the last place too, which have no step.
    for i in 0..load.rows as usize {
        let row = row_at(load, i);
        steps += row.steps as u16;
    }
    steps
}

// Gives the load of zeros: no row, and every place unused.
#[tactic(auto, unfolding(crate::specs::Load::zero_load))]
pub fn zero_load() -> Load
    ensures { ZeroLoad result }
{
    Load {
        rows: 0,
        row: [zero_row(); MOST_ROWS],
    }
}
