// What rows keep when a load is cut at m: their first m steps, or all, and then the embedded steps
// that follow directly; with the waits between kept steps, but not the one after the last.
ghost use Rattle.std.specs.Prelude.{◌≡◌, ◌+◌, ◌≤◌, ◌<◌};
ghost use Rattle.counting.specs.Sums.{sum_to};
ghost use Rattle.load.specs.Load.{most_steps, step_at};
ghost use Rattle.load.specs.View.{view_of};
ghost use Rattle.load.specs.Acceptable.{Acceptable};
ghost use Rattle.rules.specs.Bound.{largest_phase};
ghost use Rattle.rules.proofs.cut.CutBound.{kept_costs, kept_waits};
ghost use Rattle.bound.specs.inner.CutTerms.{kept_of, wait_in, ticks_of};

use load::{Load, Row, embedded_at};

// Gives how many steps a row keeps when the load is cut at m.
fn kept_of(row: &Row, m: usize) -> usize
    ensures { result ≡ kept_of row.now m }
{
    let steps = row.steps as usize;
    let first = m.min(steps);
    match (first..steps).find(|j| !embedded_at(*row, *j)) {
        Some(free) => free,
        None => steps,
    }
}

// Adds the costs of a row's first n steps.
fn costs_to(row: &Row, n: usize) -> u32
    requires { n ≤ most_steps }
    ensures { (result ≡ sum_to (λ j. (step_at row.now j).cost) n) × (result ≤ 524280) }
{
    let mut sum: u32 = 0;
    for step in &row.step[..n] {
        sum += step.cost as u32;
    }
    sum
}

// Gives the wait after a row's step where it is embedded, and 0 where it is free.
fn embedded_wait(row: &Row, j: usize) -> u32
    requires { j < most_steps }
    ensures { (result ≡ wait_in row.now j) × (result ≤ 65535) }
{
    if embedded_at(*row, j + 1) {
        row.step[j].wait as u32
    } else {
        0
    }
}

// Adds the embedded waits after a row's first n steps.
fn waits_to(row: &Row, n: usize) -> u32
    requires { n ≤ most_steps }
    ensures { (result ≡ sum_to (wait_in row.now) n) × (result ≤ 524280) }
{
    let mut sum: u32 = 0;
    for j in 0..n {
        sum += embedded_wait(row, j);
    }
    sum
}

// Adds the costs that a row keeps when the load is cut at m, and the embedded waits between them.
fn row_ticks(row: &Row, m: usize) -> u32
    requires { (1 ≤ m) × (1 ≤ row.now.steps) × (row.now.steps ≤ most_steps) }
    ensures { (result ≡ ticks_of row.now m) × (result ≤ 1048560) }
{
    let kept = kept_of(row, m);
    costs_to(row, kept) + waits_to(row, kept - 1)
}

// Adds all costs that are kept when the load is cut at m, and all embedded waits.
pub fn kept_ticks(load: &Load, m: usize) -> u32
    requires { Acceptable (view_of load.now) × (1 ≤ m) }
    ensures { result ≡ kept_costs (view_of load.now) m + kept_waits (view_of load.now) m }
{
    let mut sum: u32 = 0;
    for row in &load.row[..load.rows as usize] {
        sum += row_ticks(row, m);
    }
    sum
}

// Gives the largest phase; 0 where there is no row.
pub fn largest_phase(load: &Load) -> u32
    requires { Acceptable (view_of load.now) }
    ensures { result ≡ largest_phase (view_of load.now) }
{
    let mut most: u32 = 0;
    for row in &load.row[..load.rows as usize] {
        most = most.max(row.phase);
    }
    most
}
