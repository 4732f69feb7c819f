// The tests of each part of a load, in the order in which they are asked: a file that is read and a
// load in memory share them. Each gives the first refusal that is met, or Ok.
ghost use Rattle.std.specs.Prelude.{◌≡◌, eqb};
ghost use Rattle.load.specs.Load.{shown};
ghost use Rattle.load.specs.Faults.{outside, most_wait, last_before};
ghost use Rattle.load.specs.Check.{check_step, check_window};
ghost use Rattle.load.specs.Calls.{CheckFields, CheckStep, CheckWindow};

use crate::chains::chain_between;
use crate::parts::{step_at, window_at};
use crate::ranges::{
    FACTORY_IDENTIFIER, LARGEST_COST, LARGEST_LIMIT, LARGEST_NUMBER, LARGEST_WAIT, LAST_MOMENT,
    LATEST_PHASE, MOST_CLASS, MOST_STEPS, MOST_WINDOWS, ONLY_HEAD,
};
use crate::{Row, Step, Window};
use refusals::Refusal;

// Says whether a number is outside its range.
fn is_outside(least: u32, most: u32, n: u32) -> bool
    ensures { result ≡ outside least most n }
{
    !(least..=most).contains(&n)
}

// Checks a row's own fields, beside its steps and windows; refuses the first that is out of range,
// and then the factory identifier.
pub fn check_fields(row: Row) -> Result<(), Refusal>
    ensures { CheckFields row result }
{
    if is_outside(1, LARGEST_NUMBER, row.identifier.0) {
        return Err(Refusal::OutOfRange);
    }
    if is_outside(1, LARGEST_NUMBER, row.box_number.0) {
        return Err(Refusal::OutOfRange);
    }
    if LATEST_PHASE < row.phase {
        return Err(Refusal::OutOfRange);
    }
    if is_outside(1, LAST_MOMENT, row.deadline) {
        return Err(Refusal::OutOfRange);
    }
    if is_outside(1, MOST_STEPS as u32, row.steps as u32) {
        return Err(Refusal::OutOfRange);
    }
    if MOST_WINDOWS < row.windows as usize {
        return Err(Refusal::OutOfRange);
    }
    if MOST_CLASS < row.class {
        return Err(Refusal::OutOfRange);
    }
    if row.head != ONLY_HEAD {
        return Err(Refusal::OutOfRange);
    }
    if row.identifier.0 == FACTORY_IDENTIFIER {
        return Err(Refusal::FactoryIdentifier);
    }
    Ok(())
}

// Gives the largest wait after a step: after the last step there is none.
fn most_wait(is_last: bool) -> u32
    ensures { result ≡ most_wait is_last }
{
    if is_last { 0 } else { LARGEST_WAIT }
}

// Checks a step, which is the last of its row or not.
pub fn check_step(step: Step, is_last: bool) -> Result<(), Refusal>
    ensures { CheckStep step is_last result }
{
    if is_outside(1, LARGEST_COST, step.cost as u32) {
        return Err(Refusal::OutOfRange);
    }
    if most_wait(is_last) < step.wait as u32 {
        return Err(Refusal::OutOfRange);
    }
    Ok(())
}

// Says whether the step at a place is the last of so many.
fn is_last(j: usize, steps: u8) -> bool
    ensures { result ≡ eqb (shown j) steps }
{
    j < steps as usize && j + 1 == steps as usize
}

// Checks the step at a place of a row; past the last place it meets a step of zeros.
pub fn check_step_at(row: Row, j: usize) -> Result<(), Refusal>
    ensures { result ≡ check_step row j }
{
    check_step(step_at(row, j), is_last(j, row.steps))
}

// Gives the last step of the window before a place, and 0 where there is none.
// A number and no Option: check_window takes one, and so does its relation CheckWindow.
fn last_before(row: Row, k: usize) -> u8
    ensures { result ≡ last_before row k }
{
    if k == 0 {
        return 0;
    }
    window_at(row, k - 1).last
}

// Checks a window of a row, behind a window that ends at a step: its numbers, then the steps that
// it names, then its limit.
pub fn check_window(row: Row, window: Window, before: u8) -> Result<(), Refusal>
    ensures { CheckWindow row window before result }
{
    if window.first == 0 {
        return Err(Refusal::OutOfRange);
    }
    if window.last == 0 {
        return Err(Refusal::OutOfRange);
    }
    if is_outside(1, LARGEST_LIMIT, window.limit as u32) {
        return Err(Refusal::OutOfRange);
    }
    if window.last <= window.first {
        return Err(Refusal::WindowSteps);
    }
    if row.steps < window.last {
        return Err(Refusal::WindowSteps);
    }
    if window.first <= before {
        return Err(Refusal::WindowSteps);
    }
    if (window.limit as u32) < chain_between(row, window.first - 1, window.last) {
        return Err(Refusal::LimitBelowChain);
    }
    Ok(())
}

// Checks the window at a place of a row; past the last place it meets a window of zeros.
pub fn check_window_at(row: Row, k: usize) -> Result<(), Refusal>
    ensures { result ≡ check_window row k }
{
    check_window(row, window_at(row, k), last_before(row, k))
}
