// A row of a load file, as it is read, front to back: its own record, its steps and its windows.
// Each record is checked that it is due, then what it spells is asked and kept, before the next one
// is looked at.
ghost use Rattle.std.specs.Prelude.{List, ◌≡◌, ℕ, ◌≤◌};
ghost use Rattle.refusals.specs.Given.{given};
ghost use Rattle.load.specs.Load.{most_steps, most_windows};
ghost use Rattle.load_records.specs.Records.{row_kind};
ghost use Rattle.load_file.specs.Places.{version_said, steps_said, windows_said, row_from};
ghost use Rattle.load_file.specs.Reading.{own_fault, row_fault_at};
ghost use Rattle.load_file.specs.inner.ReadingSteps.{
  RowsBefore,
  fields_fault,
  own_fields,
  parts_fault,
};

use crate::read_parts::{check_due, own_fields};
use crate::read_steps::read_steps;
use crate::read_windows::read_windows;
use load::{BoxNumber, Identifier, MOST_ROWS, Row};
use load_records::{ROW_MARK, STEP_SIZE, row_size};
use refusals::Refusal;

// Checks the own fields of row i: 3 in field order, 21, then 4 and 5 against the identifiers and
// boxes of the rows before it, which are lent. The steps and the windows are not asked.
fn check_own(
    row: Row,
    identifiers: &[Identifier; MOST_ROWS],
    boxes: &[BoxNumber; MOST_ROWS],
    i: usize,
) -> Result<(), Refusal>
    ensures { (bs : List ℕ) → RowsBefore bs i identifiers.now boxes.now
        → result ≡ fields_fault bs i row }
{
    load::check_fields(row)?;
    if load::identifier_taken(*identifiers, i, row.identifier) {
        return Err(Refusal::IdentifierTaken);
    }
    if load::box_taken(*boxes, i, row.box_number) {
        return Err(Refusal::BoxTaken);
    }
    Ok(())
}

// Reads the own record of row i at a place, of so many bytes: gives the first refusal that is met,
// or the row with no steps and no windows read yet.
fn read_own(
    bytes: &[u8],
    at: usize,
    size: usize,
    identifiers: &[Identifier; MOST_ROWS],
    boxes: &[BoxNumber; MOST_ROWS],
    i: usize,
) -> Result<Row, Refusal>
    requires at_bound { (at ≤ 4096) × (size ≡ (row_kind (version_said bytes.now)).size) }
    requires rows_before { RowsBefore bytes.now i identifiers.now boxes.now }
    ensures { result ≡ given (own_fault bytes.now i at) (own_fields bytes.now at) }
{
    check_due(bytes, at, ROW_MARK, size)?;
    let row = own_fields(bytes, at);
    check_own(row, identifiers, boxes, i)?;
    Ok(row)
}

// Reads the steps and then the windows of a row whose own record, of so many bytes, stands at a
// place and is read: gives the first refusal that is met, or the row.
fn read_parts(bytes: &[u8], at: usize, size: usize, own: Row) -> Result<Row, Refusal>
    requires at_bound { (at ≤ 4096) × (size ≡ (row_kind (version_said bytes.now)).size) }
    requires own_value { (own ≡ own_fields bytes.now at) × (steps_said bytes.now at ≤ most_steps)
        × (windows_said bytes.now at ≤ most_windows) }
    ensures { result ≡ given (parts_fault bytes.now at) (row_from bytes.now at) }
{
    let mut row = own;
    let from = at + size;
    row.step = read_steps(bytes, at, from, row.steps as usize)?;
    let behind = from + STEP_SIZE * row.steps as usize;
    row.window = read_windows(bytes, at, behind, row.windows as usize, row)?;
    Ok(row)
}

// Reads row i of a file of a version, at a place, with its steps and then its windows: gives the
// first refusal that is met, or the row.
pub fn read_row(
    bytes: &[u8],
    at: usize,
    version: u8,
    identifiers: &[Identifier; MOST_ROWS],
    boxes: &[BoxNumber; MOST_ROWS],
    i: usize,
) -> Result<Row, Refusal>
    requires at_bound { (at ≤ 4096) × (version ≡ version_said bytes.now) }
    requires rows_before { RowsBefore bytes.now i identifiers.now boxes.now }
    ensures { result ≡ given (row_fault_at bytes.now i at) (row_from bytes.now at) }
{
    let size = row_size(version);
    let own = read_own(bytes, at, size, identifiers, boxes, i)?;
    read_parts(bytes, at, size, own)
}
