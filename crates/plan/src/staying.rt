// Until when the plan refuses a step after which its row has an open window: while a row that
// stands before it, or its own window, would be late; or, until it would stand behind the first row
// behind it, while one of those would.
ghost use Rattle.std.specs.Prelude.{◌≡◌, cond, ◌||◌, ◌+◌, ◌≤◌, ltb};
ghost use Rattle.load.specs.Load.{last_moment};
ghost use Rattle.plan.specs.inner.Walks.{RowsIn};
ghost use Rattle.plan.specs.inner.Passing.{never, jobs_of};
ghost use Rattle.plan.specs.inner.Staying.{moment_before, behind_until, stays_until};

use crate::walking::{are_in_time, rows_before};
use crate::{Board, Plan, Stay};

// A moment that no clock reaches.
pub const NEVER: u32 = 4294967295;

// Gives the moment that is so long before another, at most that past all others.
fn moment_before(end: u64, long: u16) -> u32
    ensures { result ≡ moment_before end long }
{
    end.saturating_sub(long as u64).min(NEVER as u64) as u32
}

// Gives until when a step stays refused whose own window would be finished late: for good where it
// is open already, and where its limit has no room for what is left of it and of the rows before.
fn own_moment(stay: &Stay, work: u64, end: u64) -> u32
    requires { work ≤ 103079215080 }
    ensures { result ≡ cond
        (stay.now.opened || ltb stay.now.limit (stay.now.cost + stay.now.rest + work)) never
        (moment_before end stay.now.limit) }
{
    if stay.opened {
        return NEVER;
    }
    if (stay.limit as u64) < stay.cost as u64 + stay.rest as u64 + work {
        return NEVER;
    }
    moment_before(end, stay.limit)
}

// Gives until when row i's step stays refused where a row behind it would be late: for good where
// its window is open already, else until it stands behind row b, the first of those.
fn behind_moment(stay: &Stay, i: usize, b: usize, due: u32) -> u32
    ensures { result ≡ behind_until i stay.now b due }
{
    if stay.opened {
        return NEVER;
    }
    if i < b {
        return moment_before(due as u64 + 1, stay.limit);
    }
    moment_before(due as u64, stay.limit)
}

// Gives the clock where row i's next step passes the plan there, else a moment before which the
// plan refuses it.
pub fn staying_moment(board: &Board, stack: &[u8], i: usize, stay: &Stay) -> u32
    requires { RowsIn stack.now × (stay.now.clock + stay.now.cost ≤ last_moment) }
    ensures { result ≡ stays_until
        (jobs_of board.now) stack.now i stay.now }
{
    let begin = stay.clock + stay.cost as u32;
    let Some(walked) = rows_before(board, stack, i, stay.own, begin) else {
        return NEVER;
    };
    let plan = Plan { time: walked.time };
    let end = plan.finish(begin + stay.wait as u32, stay.rest).time;
    if (stay.own as u64) < end {
        return own_moment(stay, walked.work, end);
    }
    let behind = &stack[walked.place..];
    if are_in_time(board, behind, i, end as u32) {
        return stay.clock;
    }
    let first = behind[0] as usize;
    behind_moment(stay, i, first, board.due[first])
}
