// What is looked up of one row.
ghost use Rattle.std.specs.Prelude.{◌≡◌, ◌≤◌};
ghost use Rattle.load.specs.Load.{last_moment};
ghost use Rattle.rules.specs.Ready.{release};
ghost use Rattle.plan.specs.Looks.{view_alike};
ghost use Rattle.plan.specs.Calls.{OpenWindow, LookOf};

use crate::Look;
use load::{LAST_MOMENT, MOST_STEPS, MOST_WINDOWS, Row, Window, chain_between, step_at};

// Gives the window of a row that is open once so many steps are finished, and a window of zeros
// where none.
fn window_of(row: &Row, finished: u8) -> Window
    ensures { OpenWindow row.now finished result }
{
    let windows = (row.windows as usize).min(MOST_WINDOWS);
    let places = &row.window[..];
    for window in &places[..windows] {
        if window.first <= finished && finished < window.last {
            return *window;
        }
    }
    Window {
        first: 0,
        last: 0,
        limit: 0,
    }
}

// Gives the window that is open once so many steps are finished, and a window of zeros where none.
// Zeros and no Option: the relation OpenWindow gives such a window.
pub fn open_window(row: Row, finished: u8) -> Window
    ensures { OpenWindow row finished result }
{
    window_of(&row, finished)
}

// Gives the moment from which a row's next step may start: its phase before the first step, then
// the end of the step before, and the wait after that.
fn release_of(row: Row, finished: u8, end: u32) -> u32
    requires { end ≤ last_moment }
    ensures { result ≡ release (view_alike row) 0 finished end }
{
    if finished == 0 {
        return row.phase;
    }
    let step = step_at(row, finished as usize - 1);
    end + step.wait as u32
}

// Looks a row up, for so many steps finished, the end of the last and the opening. Steps past 8
// count as 8, and moments past 1,000,000 as 1,000,000.
pub fn look_of(row: Row, finished: u8, end: u32, opening: u32) -> Look
    ensures { LookOf row finished end opening result }
{
    let done = finished.min(MOST_STEPS as u8);
    let ended = end.min(LAST_MOMENT);
    let since = opening.min(LAST_MOMENT);
    let step = step_at(row, done as usize);
    let window = window_of(&row, done);
    let later = window_of(&row, done + 1);
    Look {
        finished: done,
        steps: row.steps,
        opening: since,
        cost: step.cost,
        release: release_of(row, done, ended),
        opened: done < window.last,
        left: chain_between(row, done, window.last),
        due: since + window.limit as u32,
        wait: step.wait,
        stays: done + 1 < later.last,
        rest: chain_between(row, done + 1, later.last),
        limit: later.limit,
    }
}
