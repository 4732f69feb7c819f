// The check of a load in memory: the row count, the rows in their order, then the unused rows. The
// first refusal that is met is the one that is given.
ghost use Rattle.std.specs.Prelude.{◌≡◌, ◌≤◌, ◌<◌};
ghost use Rattle.counting.specs.Lists.{filled};
ghost use Rattle.refusals.specs.FirstMet.{first_fault_to};
ghost use Rattle.load.specs.Load.{most_rows, row_at};
ghost use Rattle.load.specs.Check.{check_step, check_window, row_fault};
ghost use Rattle.load.specs.Calls.{CheckLoad, CheckParts};

use crate::faults::{check_fields, check_step_at, check_window_at};
use crate::ranges::MOST_ROWS;
use crate::taken::{box_taken, identifier_taken};
use crate::zeros::{zero_rows_from, zero_steps_from, zero_windows_from};
use crate::{BoxNumber, Identifier, Load, Row};
use refusals::Refusal;

// Checks the used steps of a row.
fn check_steps(row: Row) -> Result<(), Refusal>
    ensures { result ≡ first_fault_to (check_step row) row.steps }
{
    for j in 0..row.steps as usize {
        check_step_at(row, j)?;
    }
    Ok(())
}

// Checks the used windows of a row.
fn check_windows(row: Row) -> Result<(), Refusal>
    ensures { result ≡ first_fault_to (check_window row) row.windows }
{
    for k in 0..row.windows as usize {
        check_window_at(row, k)?;
    }
    Ok(())
}

// Checks the parts of a row, whatever its own fields hold: its steps, their unused places, its
// windows, and their unused places. A step or a window that is counted past the last place is 3.
#[tactic(auto, unfolding(crate::specs::Check::check_parts))]
pub fn check_parts(row: Row) -> Result<(), Refusal>
    ensures { CheckParts row result }
{
    check_steps(row)?;
    if !zero_steps_from(row, row.steps as usize) {
        return Err(Refusal::OutOfRange);
    }
    check_windows(row)?;
    if !zero_windows_from(row, row.windows as usize) {
        return Err(Refusal::OutOfRange);
    }
    Ok(())
}

// Checks the row at a place: its own fields, what it shares with an earlier row, and its parts. The
// identifiers and the boxes of the rows before it are lent.
fn check_row(
    load: &Load,
    i: usize,
    identifiers: &[Identifier; MOST_ROWS],
    boxes: &[BoxNumber; MOST_ROWS],
) -> Result<(), Refusal>
    requires place { i < most_rows }
    requires identifiers_are { identifiers.now
        ≡ filled (λ k. (row_at load.now k).identifier) i most_rows (record { 0 = 0 }) }
    requires boxes_are { boxes.now
        ≡ filled (λ k. (row_at load.now k).box_number) i most_rows (record { 0 = 0 }) }
    ensures { result ≡ row_fault load.now i (row_at load.now i) }
{
    let row = load.row[i];
    check_fields(row)?;
    if identifier_taken(*identifiers, i, row.identifier) {
        return Err(Refusal::IdentifierTaken);
    }
    if box_taken(*boxes, i, row.box_number) {
        return Err(Refusal::BoxTaken);
    }
    check_parts(row)
}

// Checks the used rows of a load, of which there are at most 24.
fn check_rows(load: &Load) -> Result<(), Refusal>
    requires { load.now.rows ≤ most_rows }
    ensures { result
        ≡ first_fault_to (λ i. row_fault load.now i (row_at load.now i)) load.now.rows }
{
    let mut identifiers = [Identifier(0); MOST_ROWS];
    let mut boxes = [BoxNumber(0); MOST_ROWS];
    // Counted, as check_row goes by the place: the rows before it are asked too.
    for i in 0..load.rows as usize {
        check_row(load, i, &identifiers, &boxes)?;
        identifiers[i] = load.row[i].identifier;
        boxes[i] = load.row[i].box_number;
    }
    Ok(())
}

// Checks a load; refuses with the first of its own numbers that is met.
#[tactic(auto, unfolding(crate::specs::Check::check_load))]
pub fn check_load(load: Load) -> Result<(), Refusal>
    ensures { CheckLoad load result }
{
    let rows = load.rows as usize;
    if MOST_ROWS < rows {
        return Err(Refusal::OutOfRange);
    }
    check_rows(&load)?;
    if !zero_rows_from(&load, rows) {
        return Err(Refusal::OutOfRange);
    }
    Ok(())
}
