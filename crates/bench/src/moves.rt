// One move of the bench: Start, Idle, Done, or a refusal, each with the lamps of the windows that
// are open after it.
ghost use Rattle.std.specs.Prelude.{◌≡◌, true, ◌≤◌, Ok};
ghost use Rattle.load.specs.Load.{most_rows};
ghost use Rattle.load.specs.Check.{check_load};
ghost use Rattle.load.specs.View.{view_of};
ghost use Rattle.rules.specs.State.{shaped};
ghost use Rattle.rules.specs.Move.{move};
ghost use Rattle.bench.specs.Held.{state_of, handed_on, refused_with};
ghost use Rattle.bench.specs.inner.Moves.{finished_in, handed_with};
ghost use Rattle.bench.specs.Calls.{NextMove};

use crate::boards::{fill_board, slot_of};
use crate::lamps::lamp_word;
use crate::shape::has_shape;
use crate::{Bench, Moved};
use load::{LAST_MOMENT, Load, MOST_ROWS, check_load};
use plan::{Board, chosen_row, look_at, opening_after};
use refusals::Refusal;
use rules::Outcome;

// Says whether all steps are finished.
fn all_finished(board: &Board, rows: usize) -> bool
    requires { rows ≤ most_rows }
    ensures { result ≡ finished_in board.now rows }
{
    for (i, finished) in board.finished[..rows].iter().enumerate() {
        if *finished < board.steps[i] {
            return false;
        }
    }
    true
}

// Hands the bench back as it was given, with lamp word and count 0.
fn refused(bench: Bench, refusal: Refusal) -> Moved
    ensures { result ≡ refused_with bench refusal }
{
    Moved {
        bench,
        outcome: Outcome::Refused(refusal),
        lamps: 0,
        count: 0,
    }
}

// Hands a bench back with the lamps of the rows that have an open window, and their count.
fn handed(bench: Bench, outcome: Outcome, board: &Board, rows: usize) -> Moved
    requires { rows ≤ most_rows }
    ensures { result ≡ handed_with bench outcome board.now.opened rows }
{
    let lamps = lamp_word(board, rows);
    Moved {
        bench,
        outcome,
        lamps,
        count: u32::count_ones(lamps),
    }
}

// Makes one move of a bench that has the shape of its load, which was checked: Done where all steps
// are finished, which changes nothing; a full clock with work left is refused (11); else the first
// candidate that passes starts, or the clock moves one tick.
fn move_shaped(load: Load, bench: Bench) -> Moved
    requires load_value { check_load load ≡ Ok tt }
    requires bench_value { shaped (view_of load) (state_of bench) ≡ true }
    ensures { result ≡ handed_on bench (move (view_of load) (state_of bench)) }
{
    let mut board = Board::default();
    let mut classes = [0; MOST_ROWS];
    fill_board(&load, &bench, &mut board, &mut classes);
    let rows = load.rows as usize;
    let clock = bench.clock;
    if all_finished(&board, rows) {
        return handed(bench, Outcome::Done, &board, rows);
    }
    if LAST_MOMENT <= clock {
        return refused(bench, Refusal::ClockFull);
    }
    let i = chosen_row(&board, &classes, clock, rows);
    if rows <= i {
        return handed(bench.idle(), Outcome::Idle, &board, rows);
    }
    let look = look_at(&board, i);
    let opening = opening_after(look.stays, look.opened, look.opening, clock);
    board.opened[i] = look.stays;
    let slot = slot_of(i, look.finished, clock);
    let next = bench.start(i, look.cost, opening);
    handed(next, Outcome::Start(slot), &board, rows)
}

// Makes one move of a bench with a load that was checked; a state that does not have the load's
// shape is refused (10).
fn move_checked(load: Load, bench: Bench) -> Moved
    requires { check_load load ≡ Ok tt }
    ensures { result ≡ handed_on bench (move (view_of load) (state_of bench)) }
{
    if !has_shape(load, bench) {
        return refused(bench, Refusal::StateShape);
    }
    move_shaped(load, bench)
}

// Makes one move of the bench. A load that is out of order refuses it with the load's number, and a
// refused move hands the bench back as it was given.
pub fn next_move(load: Load, bench: Bench) -> Moved
    ensures { NextMove load bench result }
{
    match check_load(load) {
        Ok(()) => move_checked(load, bench),
        Err(refusal) => refused(bench, refusal),
    }
}
