// The search for the first candidate that passes the stacking plan. It reads the board alone.
ghost use Rattle.plan.specs.Calls.{OpeningAfter, ChosenRow, NextStart};

use crate::orders::stack_of;
use crate::searching::Search;
use crate::{Board, Chosen};
use load::{LAST_MOMENT, MOST_ROWS};

// Gives a row's opening once its next step is over: kept while its window stays open, one past
// 1,000,000 as 1,000,000; the clock where the step opens one, else 0.
// Two marks in and 0 for none out: the relation OpeningAfter takes and gives these.
pub fn opening_after(stays: bool, opened: bool, opening: u32, clock: u32) -> u32
    ensures { OpeningAfter stays opened opening clock result }
{
    if !stays {
        return 0;
    }
    if opened {
        opening.min(LAST_MOMENT)
    } else {
        clock
    }
}

// Gives the row of the first candidate that passes, by step number, then higher class, then
// row; where none does, the number of rows, at most 24. A class above 3 is as 3.
// The classes are lent beside the board, here and in next_start, so that its laws stay (D93).
pub fn chosen_row(board: &Board, classes: &[u8; MOST_ROWS], clock: u32, rows: usize) -> usize
    ensures { ChosenRow board.now classes.now clock rows result }
{
    let last = rows.min(MOST_ROWS);
    if LAST_MOMENT < clock {
        return last;
    }
    let order = stack_of(board, last);
    let search = Search::of(board, classes, &order.row[..order.count], last);
    search.first_row(&mut [0; MOST_ROWS], clock).unwrap_or(last)
}

// Gives the first moment from the clock on at which a candidate passes, and its row: the clock
// itself is searched first, as most steps start there, and what that tells of refused rows is used.
// The number of rows stands for none, and no Option: the relation NextStart gives it.
pub fn next_start(board: &Board, classes: &[u8; MOST_ROWS], clock: u32, rows: usize) -> Chosen
    ensures { NextStart board.now classes.now clock rows result }
{
    let last = rows.min(MOST_ROWS);
    if LAST_MOMENT < clock {
        return Chosen {
            row: last,
            moment: clock,
        };
    }
    let order = stack_of(board, last);
    let search = Search::of(board, classes, &order.row[..order.count], last);
    let mut until = [0; MOST_ROWS];
    if let Some(row) = search.first_row(&mut until, clock) {
        return Chosen { row, moment: clock };
    }
    let before = search.start_bound(&until, clock);
    let next = search.sweep(&until, clock, before);
    Chosen {
        row: next.row,
        moment: next.moment.min(LAST_MOMENT),
    }
}
