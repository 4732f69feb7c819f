// Whether parts of a load are all zero, as the unused places of a load are.
ghost use Rattle.std.specs.Prelude.{◌≡◌};
ghost use Rattle.counting.specs.Sums.{all_from};
ghost use Rattle.load.specs.Load.{most_rows, row_at};
ghost use Rattle.load.specs.Check.{
  is_zero_step,
  is_zero_window,
  zero_fields,
  zero_steps_from,
  zero_windows_from,
  is_zero_row,
};

use crate::{BoxNumber, Identifier, Load, Row, Step, Window};

// Says whether a step is one of zeros.
fn is_zero_step(step: Step) -> bool
    ensures { result ≡ is_zero_step step }
{
    step == Step::default()
}

// Says whether a window is one of zeros.
fn is_zero_window(window: Window) -> bool
    ensures { result ≡ is_zero_window window }
{
    window == Window::default()
}

// Says whether the fields of a row beside its steps and windows are zeros.
fn zero_fields(row: Row) -> bool
    ensures { result ≡ zero_fields row }
{
    row.identifier == Identifier::default()
        && row.box_number == BoxNumber::default()
        && row.phase == 0
        && row.deadline == 0
        && row.steps == 0
        && row.windows == 0
        && row.class == 0
        && row.head == 0
}

// Says whether the steps of a row from place a on are zeros.
pub fn zero_steps_from(row: Row, a: usize) -> bool
    ensures { result ≡ zero_steps_from row a }
{
    row.step.iter().skip(a).all(|step| is_zero_step(*step))
}

// Says whether the windows of a row from place a on are zeros.
pub fn zero_windows_from(row: Row, a: usize) -> bool
    ensures { result ≡ zero_windows_from row a }
{
    row.window
        .iter()
        .skip(a)
        .all(|window| is_zero_window(*window))
}

// Says whether a row is one of zeros.
fn is_zero_row(row: Row) -> bool
    ensures { result ≡ is_zero_row row }
{
    zero_fields(row) && zero_steps_from(row, 0) && zero_windows_from(row, 0)
}

// Says whether the rows of a load from place a on are rows of zeros.
pub fn zero_rows_from(load: &Load, a: usize) -> bool
    ensures { result ≡ all_from (λ i. is_zero_row (row_at load.now i)) a most_rows }
{
    load.row.iter().skip(a).all(|row| is_zero_row(*row))
}
