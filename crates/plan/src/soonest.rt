// The first moment at which a row passes: it is asked at one moment after the other until it does,
// or until another is known to start before; and a moment before which some row starts.
ghost use Rattle.std.specs.Prelude.{◌≡◌, ◌+◌, max, ◌≤◌, ◌<◌, IfSome};
ghost use Rattle.counting.specs.Lists.{member_at};
ghost use Rattle.load.specs.Load.{most_rows, last_moment};
ghost use Rattle.plan.specs.Boards.{look_in};
ghost use Rattle.plan.specs.inner.Searching.{TriedRow, PassesFirst, RefusedTo};
ghost use Rattle.plan.specs.inner.Turns.{StartsBefore};

use crate::Board;
use crate::numbers::is_tried;
use crate::searching::Search;
use crate::staying::NEVER;
use load::{LAST_MOMENT, MOST_ROWS, MOST_STEPS};

// Gives the moment from which row i is asked: from the clock on, once it is ready, and not while it
// is known to be refused.
pub fn row_from(board: &Board, until: &[u32; MOST_ROWS], clock: u32, i: usize) -> u32
    requires { i < most_rows }
    ensures { result ≡ max (max (look_in board.now i).release
        (member_at until.now i)) clock }
{
    board.release[i].max(until[i]).max(clock)
}

impl Search<'_> {
    // Gives the first moment from one on and before another at which row i's next step passes, and
    // the other where there is none. A step that is refused is asked again no sooner than it may
    // pass.
    pub(crate) fn first_passing(&self, from: u32, before: u32, i: usize) -> u32
        requires { (i < self.now.rows) × (before ≤ last_moment + 1) }
        ensures { PassesFirst self.now.board.now from before self.now.rows i result }
    {
        let mut moment = from;
        while moment < before {
            let until = self.tried_until(moment, i);
            if until == moment {
                return moment;
            }
            moment = until;
        }
        before
    }

    // Gives a row that may be tried the soonest, where one may.
    fn soonest_row(&self, until: &[u32; MOST_ROWS]) -> Option<usize>
        ensures { IfSome result (λ row. (row < self.now.rows)
            × TriedRow self.now.board.now.finished self.now.board.now.steps
            self.now.board.now.opened self.now.lowest row) }
    {
        let board = self.board;
        let lowest = self.lowest;
        let mut row = None;
        let mut soonest = NEVER;
        // Counted, as the row is stored, and several arrays are read at its place.
        for i in 0..self.rows {
            let number = board.finished[i];
            if number < MOST_STEPS as u8 && is_tried(board, i, number, lowest) {
                let moment = row_from(board, until, 0, i);
                if moment < soonest {
                    soonest = moment;
                    row = Some(i);
                }
            }
        }
        row
    }

    // Gives a moment before which some row starts, from the clock on, and at most that past
    // 1,000,000: the row that may be tried the soonest is asked for its own.
    pub(crate) fn start_bound(&self, until: &[u32; MOST_ROWS], clock: u32) -> u32
        requires { RefusedTo self.now.board.now clock self.now.rows until.now }
        ensures { StartsBefore self.now.board.now clock self.now.rows result }
    {
        let Some(i) = self.soonest_row(until) else {
            return LAST_MOMENT + 1;
        };
        let from = row_from(self.board, until, clock, i);
        let moment = self.first_passing(from, LAST_MOMENT, i);
        moment + 1
    }
}
