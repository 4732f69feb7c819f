// The sweep for the soonest start: the rows are asked for their first moments by step number, then
// higher class, then row.
ghost use Rattle.std.specs.Prelude.{◌+◌, ◌≤◌, ◌<◌};
ghost use Rattle.load.specs.Load.{most_steps, last_moment, most_class};
ghost use Rattle.plan.specs.inner.Searching.{RefusedTo};
ghost use Rattle.plan.specs.inner.Turns.{PassedTo, SweptTo, SweptOn};

use crate::numbers::is_tried;
use crate::searching::Search;
use crate::soonest::row_from;
use crate::turns::{TURNS, next_turn, turn_at};
use crate::{Chosen, Swept};
use load::MOST_ROWS;

impl Search<'_> {
    // Asks the rows of one step number and one turn for their first moments, each before the
    // soonest so far: gives the soonest and its row, as they were found where none is sooner, and
    // the next turn.
    fn sweep_turn(
        &self,
        until: &[u32; MOST_ROWS],
        clock: u32,
        number: u8,
        turn: u8,
        found: usize,
        before: u32,
    ) -> Swept
        requires known { RefusedTo self.now.board.now clock self.now.rows until.now }
        requires lowest_le_number { (self.now.lowest ≤ number) × (number < most_steps)
            × (turn ≤ most_class) × (before ≤ last_moment + 1) }
        ensures { SweptOn self.now.board.now self.now.classes.now clock self.now.rows number
            turn found before result }
    {
        let board = self.board;
        let lowest = self.lowest;
        let mut row = found;
        let mut soonest = before;
        let mut next = TURNS;
        // Counted, as the row is stored, and several arrays are read at its place.
        for i in 0..self.rows {
            if is_tried(board, i, number, lowest) {
                let from = row_from(board, until, clock, i);
                if from < soonest {
                    let here = turn_at(self.classes, i);
                    if here != turn {
                        next = next_turn(turn, here, next);
                    } else {
                        let moment = self.first_passing(from, soonest, i);
                        if moment < soonest {
                            soonest = moment;
                            row = i;
                        }
                    }
                }
            }
        }
        Swept {
            row,
            moment: soonest,
            next,
        }
    }

    // Gives the soonest moment from the clock on and before another at which a candidate passes,
    // and its row; where there is none, the number of rows and the other.
    // The bound of `before` is a clause of three methods: a type of one number is opened in each.
    pub(crate) fn sweep(&self, until: &[u32; MOST_ROWS], clock: u32, before: u32) -> Chosen
        requires known { RefusedTo self.now.board.now clock self.now.rows until.now }
        requires before_bound { before ≤ last_moment + 1 }
        ensures { SweptTo self.now.board.now self.now.classes.now clock before self.now.rows
            (PassedTo self.now.board.now self.now.classes.now self.now.rows most_steps 0)
            result.row result.moment }
    {
        let mut row = self.rows;
        let mut soonest = before;
        // Counted, as the step number is handed on.
        for number in self.lowest..8 {
            if self.numbers[number as usize] {
                let mut turn = self.first;
                while turn < TURNS {
                    let swept = self.sweep_turn(until, clock, number, turn, row, soonest);
                    row = swept.row;
                    soonest = swept.moment;
                    turn = swept.next;
                }
            }
        }
        Chosen {
            row,
            moment: soonest,
        }
    }
}
