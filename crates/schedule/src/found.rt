// The tests 13 to 17 of one slot, on plain numbers.
ghost use Rattle.std.specs.Prelude.{◌≡◌, ◌-◌, ◌&&◌, eqb, ltb};
ghost use Rattle.counting.specs.Lists.{any_in};
ghost use Rattle.refusals.specs.FirstMet.{first_met};
ghost use Rattle.refusals.specs.Given.{given, if_good};
ghost use Rattle.load.specs.Load.{row_at};
ghost use Rattle.load.specs.View.{row_windows};
ghost use Rattle.schedule.specs.inner.Seen.{started, released_at, end_at, late_window};
ghost use Rattle.schedule.specs.inner.Seen.{step_tests, slot_tests, with_slot};

use crate::seen::{RowSeen, Seen};
use load::{LAST_MOMENT, Load, MOST_ROWS, MOST_STEPS, Row, Window, step_at};
use refusals::Refusal;

// Gives when the slot of the step at a place starts, and 0 past the last place.
fn started(seen: &RowSeen, j: usize) -> u32
    ensures { result ≡ started seen.now j }
{
    seen.starts.get(j).copied().unwrap_or(0)
}

// Gives the moment from which a step, counted from 1, of a row may start.
fn release_of(row: &Row, seen: &RowSeen, step: u8) -> u64
    ensures { result ≡ released_at row.now seen.now step }
{
    if step <= 1 {
        return row.phase as u64;
    }
    let j = step as usize - 2;
    let before = step_at(*row, j);
    started(seen, j) as u64 + before.cost as u64 + before.wait as u64
}

// Gives the moment at which a step, counted from 1, of a row ends.
fn end_of(row: &Row, step: u8, start: u32) -> u64
    ensures { result ≡ end_at row.now step start }
{
    let its = step_at(*row, step.saturating_sub(1) as usize);
    start as u64 + its.cost as u64
}

// Says whether a step that ends then ends a window late.
fn late_window(seen: &RowSeen, step: u8, end: u64, window: Window) -> bool
    ensures { result ≡ late_window seen.now step end window }
{
    let first = window.first.saturating_sub(1) as usize;
    let opened = started(seen, first) as u64;
    step == window.last && opened + (window.limit as u64) < end
}

// Says whether a step that ends then ends some window of its row late.
fn window_late(row: &Row, seen: &RowSeen, step: u8, end: u64) -> bool
    ensures { result ≡ any_in (late_window seen.now step end) (row_windows row.now) }
{
    let mut windows = row.window.iter().take(row.windows as usize);
    windows.any(|window| late_window(seen, step, end, *window))
}

// Says whether a step that ends then ends its row late.
fn row_late(row: &Row, step: u8, end: u64) -> bool
    ensures { result ≡ (eqb step row.now.steps && ltb row.now.deadline end) }
{
    step == row.steps && (row.deadline as u64) < end
}

// Checks a step, counted from 1, of a row, behind a slot that ends at a moment: gives when it ends,
// or refuses with the first of 13 to 17 that is met.
#[tactic(auto, unfolding(crate::specs::inner::Seen::step_tests))]
fn check_step(row: &Row, seen: &RowSeen, before: u64, step: u8, start: u32) -> Result<u64, Refusal>
    ensures { result ≡ given (first_met (step_tests row.now seen.now before step start))
        (end_at row.now step start) }
{
    if step < 1 {
        return Err(Refusal::NoSuchSlot);
    }
    if row.steps < step {
        return Err(Refusal::NoSuchSlot);
    }
    if MOST_STEPS < step as usize {
        return Err(Refusal::NoSuchSlot);
    }
    if step as usize != seen.count as usize + 1 {
        return Err(Refusal::NoSuchSlot);
    }
    if LAST_MOMENT < start {
        return Err(Refusal::NoSuchSlot);
    }
    if (start as u64) < before {
        return Err(Refusal::SlotOverlaps);
    }
    if (start as u64) < release_of(row, seen, step) {
        return Err(Refusal::SlotEarly);
    }
    let end = end_of(row, step, start);
    if window_late(row, seen, step, end) {
        return Err(Refusal::WindowLate);
    }
    if row_late(row, step, end) {
        return Err(Refusal::RowLate);
    }
    Ok(end)
}

// Checks a slot of a load, behind the slots that were seen: gives when it ends, or refuses with the
// first of 13 to 17 that is met.
fn check_row(load: &Load, seen: &Seen, row: u8, step: u8, start: u32) -> Result<u64, Refusal>
    ensures { result ≡ given (first_met (slot_tests load.now seen.now row step start))
        (end_at (row_at load.now (row - 1)) step start) }
{
    if row < 1 {
        return Err(Refusal::NoSuchSlot);
    }
    if load.rows < row {
        return Err(Refusal::NoSuchSlot);
    }
    if MOST_ROWS < row as usize {
        return Err(Refusal::NoSuchSlot);
    }
    let i = row as usize - 1;
    check_step(&load.row[i], &seen.rows[i], seen.end, step, start)
}

// Checks a slot and keeps it; or refuses with the first of 13 to 17 that is met, and keeps nothing.
pub fn check_slot(
    load: &Load,
    seen: &mut Seen,
    row: u8,
    step: u8,
    start: u32,
) -> Result<(), Refusal>
    ensures found { result ≡ first_met (slot_tests load.now seen.old row step start) }
    ensures kept { seen.new
        ≡ if_good result (with_slot load.now seen.old row step start) seen.old }
{
    let end = check_row(load, seen, row, step, start)?;
    seen.keep(row, step, start, end);
    Ok(())
}
