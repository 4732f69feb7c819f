// The open rows, gone over in the stack's order but for the row whose step is tried: each finished
// when the one before is and its own wait is over, and each in time.
ghost use Rattle.std.specs.Prelude.{◌≡◌, ◌+◌, max, ◌≤◌, ltb, length, IfSome};
ghost use Rattle.rules.specs.Plan.{in_time_by};
ghost use Rattle.plan.specs.inner.Passing.{jobs_of};
ghost use Rattle.plan.specs.inner.Walks.{RowsIn, WalkFits, others_in, walk_in, walked_of};

use crate::orders::stands_before;
use crate::{Board, Plan, Walked};

impl Plan {
    // Finishes a row's window, behind the one before and from its release on.
    pub(crate) fn finish(mut self, release: u32, left: u32) -> Plan
        requires { self.time ≤ 4294967295 }
        ensures { (result.time ≡ max self.time release + left) × (result.time ≤ 8589934590) }
    {
        self.time = self.time.max(release as u64) + left as u64;
        self
    }
}

// Gives the sum of what was left of one row more; and says that this one has 32 bits.
fn with_work(work: u64, left: u32) -> u64
    requires { work ≤ 98784247785 }
    ensures { (result ≡ work + left) × (left ≤ 4294967295) }
{
    work + left as u64
}

// Says whether a moment is past that by which a window is due; and that this one has 32 bits, which
// keeps the sums of the plan in 64.
fn is_late(due: u32, time: u64) -> bool
    ensures { (result ≡ ltb due time) × (due ≤ 4294967295) }
{
    (due as u64) < time
}

// Says whether the rows of a stack, but row i, are each in time, the first begun at a moment.
pub fn are_in_time(board: &Board, stack: &[u8], i: usize, begin: u32) -> bool
    requires { RowsIn stack.now }
    ensures { result ≡ in_time_by
        (jobs_of board.now) begin (others_in i stack.now) }
{
    let mut plan = Plan { time: begin as u64 };
    for row in stack {
        let row = *row as usize;
        if row != i {
            let left = board.left[row];
            plan = plan.finish(board.release[row], left);
            if is_late(board.due[row], plan.time) {
                return false;
            }
        }
    }
    true
}

// Goes over the rows of a stack, but row i, that stand before row i where its window is due at
// own, the first begun at a moment: gives the place behind them, the moment at which they are
// finished and the sum of what was left of them; and nothing where one was late.
pub fn rows_before(board: &Board, stack: &[u8], i: usize, own: u32, begin: u32) -> Option<Walked>
    requires { RowsIn stack.now }
    ensures value { result ≡ walked_of (walk_in
        (jobs_of board.now) i own stack.now 0 begin 0) }
    ensures walk_fits { IfSome result (WalkFits (length stack.now)) }
{
    let mut plan = Plan { time: begin as u64 };
    let mut work: u64 = 0;
    for (place, row) in stack.iter().enumerate() {
        let row = *row as usize;
        if row != i {
            let due = board.due[row];
            if stands_before(own, i, due, row) {
                return Some(Walked {
                    place,
                    time: plan.time,
                    work,
                });
            }
            let left = board.left[row];
            plan = plan.finish(board.release[row], left);
            work = with_work(work, left);
            if is_late(due, plan.time) {
                return None;
            }
        }
    }
    Some(Walked {
        place: stack.len(),
        time: plan.time,
        work,
    })
}
