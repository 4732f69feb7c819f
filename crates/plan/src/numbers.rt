// The lowest unfinished step, and the step numbers that rows are tried with.
ghost use Rattle.std.specs.Prelude.{◌≡◌, true, not, ◌&&◌, ℕ, min, ◌≤◌, ◌<◌, leb, set};
ghost use Rattle.counting.specs.Lists.{is_marked};
ghost use Rattle.counting.specs.Sums.{any_to};
ghost use Rattle.load.specs.Load.{most_rows, most_steps};
ghost use Rattle.plan.specs.inner.Searching.{LowestStep, tried_in, NumbersIn};

use crate::Board;
use load::MOST_STEPS;

// Gives the lower of the lowest unfinished step so far and a row's, where the row has one. A row
// that has finished all its steps counts as past the eighth: one minimum of 16-bit numbers, so that
// many rows are asked at once; a choice of the row's step by a test becomes a branch.
fn lower_step(lowest: u16, finished: u8, steps: u8) -> u16
    requires { lowest ≤ 8 }
    ensures { (result ≤ lowest)
        × ((j : ℕ) → (leb j lowest && leb (min j steps) finished) ≡ leb j result) }
{
    let past = (steps <= finished) as u16;
    lowest.min(finished as u16 + 8 * past)
}

// Gives the lowest step that some row has not finished, 8 where there is none: the rows have
// finished all their steps below a place where that is not after it.
pub fn lowest_step(board: &Board, rows: usize) -> u8
    requires { rows ≤ most_rows }
    ensures { LowestStep board.now.finished board.now.steps rows result }
{
    let mut lowest: u16 = 8;
    for (i, finished) in board.finished[..rows].iter().enumerate() {
        lowest = lower_step(lowest, *finished, board.steps[i]);
    }
    lowest as u8
}

// Says whether row i is tried with a step number: its next step has it, is there, and is the lowest
// unfinished one or embedded.
pub fn is_tried(board: &Board, i: usize, number: u8, lowest: u8) -> bool
    requires { i < most_rows }
    ensures { result ≡ tried_in board.now number lowest i }
{
    if board.finished[i] != number {
        return false;
    }
    if board.steps[i] <= number {
        return false;
    }
    if number == lowest {
        return true;
    }
    board.opened[i]
}

// Says whether no row has an open window. All rows are asked, without an early exit, which lets
// several be asked at once.
pub fn none_open(board: &Board, rows: usize) -> bool
    requires { rows ≤ most_rows }
    ensures { result ≡ not (any_to (is_marked board.now.opened) rows) }
{
    let mut any = false;
    for opened in &board.opened[..rows] {
        any = any | *opened;
    }
    !any
}

// Marks a step number.
fn mark_number(numbers: &mut [bool; MOST_STEPS], number: u8)
    requires { number < most_steps }
    ensures { numbers.new ≡ set numbers.old number true }
{
    numbers[number as usize] = true;
}

// Gives marks of the step numbers that rows are tried with: the lowest unfinished step, and those
// of the rows that have an open window.
pub fn numbers_of(board: &Board, lowest: u8, rows: usize) -> [bool; MOST_STEPS]
    requires { rows ≤ most_rows }
    ensures { NumbersIn board.now.finished board.now.opened lowest rows result }
{
    let mut numbers = [false; MOST_STEPS];
    if lowest < MOST_STEPS as u8 {
        mark_number(&mut numbers, lowest);
    }
    if none_open(board, rows) {
        return numbers;
    }
    for (i, opened) in board.opened[..rows].iter().enumerate() {
        let number = board.finished[i];
        if *opened && number < MOST_STEPS as u8 {
            mark_number(&mut numbers, number);
        }
    }
    numbers
}
