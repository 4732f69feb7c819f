// The search at a moment: the candidates are tried by step number, then higher class, then row.
ghost use Rattle.std.specs.Prelude.{◌≡◌, ◌&&◌, ◌≤◌, ◌<◌, leb, length};
ghost use Rattle.counting.specs.Lists.{is_marked, member_at};
ghost use Rattle.load.specs.Load.{most_rows, last_moment};
ghost use Rattle.rules.specs.Plan.{stack_by};
ghost use Rattle.plan.specs.Boards.{look_in};
ghost use Rattle.plan.specs.inner.Searching.{
  LowestStep,
  NumbersIn,
  RefusedTo,
  tried_in,
  FirstRow,
};
ghost use Rattle.plan.specs.inner.Turns.{FirstTurn};

use crate::Board;
use crate::numbers::{is_tried, lowest_step, numbers_of};
use crate::turns::{TURNS, first_turn, next_turn, turn_at};
use load::{MOST_ROWS, MOST_STEPS};

// What a search counts on: a board and the classes of its rows, how many rows there are, the rows
// with an open window in the order of the stack, the lowest unfinished step, marks of the step
// numbers that rows are tried with, and the turn of the highest class.
#[derive(Clone, Copy)]
pub struct Search<'a> {
    pub board: &'a Board,
    pub classes: &'a [u8; MOST_ROWS],
    pub rows: usize,
    pub stack: &'a [u8],
    pub lowest: u8,
    pub numbers: [bool; MOST_STEPS],
    pub first: u8,
    ghost rows_most: { rows ≤ most_rows },
    ghost stack_most: { length stack.now ≤ most_rows },
    ghost stack_is: { stack.now ≡ stack_by (is_marked board.now.opened)
        (member_at board.now.due) rows },
    ghost lowest_is: { LowestStep board.now.finished board.now.steps rows lowest },
    ghost numbers_in: { NumbersIn board.now.finished board.now.opened lowest rows
        numbers },
    ghost first_turn: { FirstTurn classes.now first },
}

// Says whether row i is tried with a step number, and its next step is ready at the clock.
fn is_ready(board: &Board, i: usize, number: u8, lowest: u8, clock: u32) -> bool
    requires { i < most_rows }
    ensures { result ≡ (tried_in board.now number lowest i
        && leb (look_in board.now i).release clock) }
{
    is_tried(board, i, number, lowest) && board.release[i] <= clock
}

impl<'a> Search<'a> {
    // Gives the search of a board, whose stack was found.
    pub(crate) fn of(
        board: &'a Board,
        classes: &'a [u8; MOST_ROWS],
        stack: &'a [u8],
        rows: usize,
    ) -> Search<'a>
        requires rows_most { rows ≤ most_rows }
        requires stack_most { length stack.now ≤ most_rows }
        requires stack_is { stack.now ≡ stack_by (is_marked board.now.opened)
            (member_at board.now.due) rows }
        ensures board_is { result.board ≡ board.entry }
        ensures classes_are { result.classes ≡ classes.entry }
        ensures rows_are { result.rows ≡ rows }
    {
        let lowest = lowest_step(board, rows);
        Search {
            board,
            classes,
            rows,
            stack,
            lowest,
            numbers: numbers_of(board, lowest, rows),
            first: first_turn(classes),
        }
    }

    // Gives the row of the first candidate that passes at the clock, where one does; until when
    // each that was tried before it is refused is kept.
    pub(crate) fn first_row(&self, until: &mut [u32; MOST_ROWS], clock: u32) -> Option<usize>
        requires clock_most { clock ≤ last_moment }
        requires known { RefusedTo self.now.board.now clock self.now.rows until.old }
        ensures chosen_row { FirstRow self.now.board.now self.now.classes.now clock
            self.now.rows result }
        ensures refused_to { RefusedTo self.now.board.now clock self.now.rows until.new }
    {
        // Copied, and so not read again for each row.
        let board = self.board;
        let rows = self.rows;
        let lowest = self.lowest;
        let mut row = None;
        // Counted: the step number is handed on, and the row is stored and read in several arrays.
        'search: for number in lowest..8 {
            if self.numbers[number as usize] {
                let mut turn = self.first;
                while turn < TURNS {
                    let mut next = TURNS;
                    for i in 0..rows {
                        if is_ready(board, i, number, lowest, clock) {
                            let here = turn_at(self.classes, i);
                            if here != turn {
                                next = next_turn(turn, here, next);
                            } else {
                                let moment = self.tried_until(clock, i);
                                if moment == clock {
                                    row = Some(i);
                                    break 'search;
                                }
                                until[i] = moment;
                            }
                        }
                    }
                    turn = next;
                }
            }
        }
        row
    }
}
