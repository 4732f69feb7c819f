// Until when a step is refused: by the plan, or because it would end too late.
ghost use Rattle.std.specs.Prelude.{true, ◌≡◌, ◌+◌, ◌≤◌, ◌<◌, ltb};
ghost use Rattle.load.specs.Load.{last_moment};
ghost use Rattle.plan.specs.Boards.{look_in};
ghost use Rattle.plan.specs.Choices.{opening_by};
ghost use Rattle.plan.specs.inner.Passing.{PassesFrom};
ghost use Rattle.plan.specs.inner.Searching.{TriedUntil};

use crate::Stay;
use crate::choices::opening_after;
use crate::searching::Search;
use crate::staying::{NEVER, staying_moment};
use crate::walking::are_in_time;
use load::LAST_MOMENT;

// Gives when a row's window is due that is open after its next step.
fn due_after(opened: bool, opening: u32, clock: u32, limit: u16) -> u32
    requires { clock ≤ last_moment }
    ensures { result ≡ opening_by true opened opening clock + limit }
{
    opening_after(true, opened, opening, clock) + limit as u32
}

// Says whether a step that starts at the clock would end past 1,000,000.
fn ends_late(clock: u32, cost: u16) -> bool
    requires { clock ≤ last_moment }
    ensures { result ≡ ltb last_moment (clock + cost) }
{
    LAST_MOMENT < clock + cost as u32
}

impl Search<'_> {
    // Gives the clock where row i's next step passes the plan there, else a moment before which the
    // plan refuses it.
    fn passing_moment(&self, clock: u32, i: usize) -> u32
        requires { (i < self.now.rows)
            × (clock + (look_in self.now.board.now i).cost ≤ last_moment) }
        ensures { PassesFrom self.now.board.now clock self.now.rows i result }
    {
        let board = self.board;
        let cost = board.cost[i];
        if !board.stays[i] {
            if are_in_time(board, self.stack, i, clock + cost as u32) {
                return clock;
            }
            return NEVER;
        }
        let opened = board.opened[i];
        let limit = board.limit[i];
        let stay = Stay {
            opened,
            clock,
            cost,
            wait: board.wait[i],
            rest: board.rest[i],
            limit,
            own: due_after(opened, board.opening[i], clock, limit),
        };
        staying_moment(board, self.stack, i, &stay)
    }

    // Gives the clock where row i's next step would end by 1,000,000 and passes the plan there,
    // else a moment before which it does not.
    // Row and clock are bounded by clauses: a type for one number is unwrapped at each use.
    pub(crate) fn tried_until(&self, clock: u32, i: usize) -> u32
        requires { (i < self.now.rows) × (clock ≤ last_moment) }
        ensures { TriedUntil self.now.board.now clock self.now.rows i result }
    {
        if ends_late(clock, self.board.cost[i]) {
            return NEVER;
        }
        self.passing_moment(clock, i)
    }
}
