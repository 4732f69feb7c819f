// Reading a load file, front to back: the first faulty record decides, with 1 to 8 or 21.
ghost use Rattle.std.specs.Prelude.{◌≡◌, ◌+◌, ◌*◌, ◌≤◌};
ghost use Rattle.refusals.specs.FirstMet.{first_met};
ghost use Rattle.refusals.specs.Given.{given};
ghost use Rattle.load.specs.Load.{most_rows};
ghost use Rattle.load.specs.View.{view_of, steps_in_all};
ghost use Rattle.load_records.specs.Records.{is_version, row_kind, step_kind, window_kind};
ghost use Rattle.load_file.specs.Places.{version_said, rows_said, load_in};
ghost use Rattle.load_file.specs.Reading.{header_tests, end_tests};
ghost use Rattle.load_file.specs.Calls.{ReadLoad};
ghost use Rattle.load_file.specs.inner.ReadingSteps.{rows_fault};

use crate::read_parts::check_due;
use crate::read_row::read_row;
use load::{BoxNumber, Identifier, Load, MOST_ROWS};
use load_records::{
    END_MARK, END_SIZE, HEADER_MARK, HEADER_SIZE, STEP_SIZE, VERSION_1, VERSION_2, WINDOW_SIZE,
    row_size,
};
use refusals::Refusal;
use words::{byte_at, number16_at};

// Says whether there is such a version.
fn is_version(version: u8) -> bool
    ensures { result ≡ is_version version }
{
    version == VERSION_1 || version == VERSION_2
}

// Checks the header: 1, 2 for its mark and its version, 3 for its row count.
fn check_header(bytes: &[u8]) -> Result<(), Refusal>
    ensures { result ≡ first_met (header_tests bytes.now) }
{
    check_due(bytes, 0, HEADER_MARK, HEADER_SIZE)?;
    if !is_version(byte_at(bytes, 2)) {
        return Err(Refusal::MarkDiffers);
    }
    if MOST_ROWS < byte_at(bytes, 3) as usize {
        return Err(Refusal::OutOfRange);
    }
    Ok(())
}

// Checks the end record at a place: 1, 2, and 8 where its count is not that of the load's steps or
// bytes follow.
fn check_end(bytes: &[u8], at: usize, steps: u16) -> Result<(), Refusal>
    requires at_bound { at ≤ 4096 }
    requires steps_value { steps ≡ steps_in_all (view_of (load_in bytes.now)) }
    ensures { result ≡ first_met (end_tests bytes.now at) }
{
    check_due(bytes, at, END_MARK, END_SIZE)?;
    let count = number16_at(bytes, at + 2);
    if count != steps {
        return Err(Refusal::EndDiffers);
    }
    if at + END_SIZE < bytes.len() {
        return Err(Refusal::EndDiffers);
    }
    Ok(())
}

// Gives the place behind a row of a version, with its steps and windows, whose own record stands at
// a place.
fn place_behind(at: usize, version: u8, steps: u8, windows: u8) -> usize
    requires { at ≤ 4096 }
    ensures { result ≡ at + (row_kind version).size + step_kind.size * steps
        + window_kind.size * windows }
{
    at + row_size(version) + STEP_SIZE * steps as usize + WINDOW_SIZE * windows as usize
}

// Reads the rows behind the header, of which it announces at most 24, and then the end record:
// gives the first refusal that is met, or the load.
fn read_rows(bytes: &[u8], version: u8, rows: u8) -> Result<Load, Refusal>
    requires { (version ≡ version_said bytes.now) × (rows ≡ rows_said bytes.now)
        × (rows ≤ most_rows) }
    ensures { result ≡ given (rows_fault bytes.now) (load_in bytes.now) }
{
    let mut identifiers = [Identifier(0); MOST_ROWS];
    let mut boxes = [BoxNumber(0); MOST_ROWS];
    let mut kept = [load::zero_row(); MOST_ROWS];
    let mut at = HEADER_SIZE;
    let mut steps: u16 = 0;
    // Counted, as what the rows before hold is lent to the reading of the next, which is then kept.
    for i in 0..rows as usize {
        let row = read_row(bytes, at, version, &identifiers, &boxes, i)?;
        identifiers[i] = row.identifier;
        boxes[i] = row.box_number;
        kept[i] = row;
        steps += row.steps as u16;
        at = place_behind(at, version, row.steps, row.windows);
    }
    check_end(bytes, at, steps)?;
    Ok(Load { rows, row: kept })
}

// Reads a load file: gives the load, or the first refusal that is met.
pub fn read_load(bytes: &[u8]) -> Result<Load, Refusal>
    ensures { ReadLoad bytes.now result }
{
    check_header(bytes)?;
    read_rows(bytes, byte_at(bytes, 2), byte_at(bytes, 3))
}
