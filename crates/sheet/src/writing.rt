// Writes a load as its sheet: the lines of each row in the order of its steps, row by row. Refuses
// a load that its check refuses, one whose classes or heads no sheet carries, and an output shorter
// than the sheet.
ghost use Rattle.std.specs.Prelude.{◌≡◌, ◌+◌, ◌≤◌, length, Ok};
ghost use Rattle.std.proofs.lemmas.List.Edits.{sets};
ghost use Rattle.load.specs.Load.{most_steps};
ghost use Rattle.load.specs.Check.{check_load};
ghost use Rattle.sheet.specs.Writing.{row_lines, sheet_bytes};
ghost use Rattle.sheet.specs.Calls.{WriteSheet};

use load::{Load, Row};
use refusals::Refusal;

// Writes the lines of a row from a place on, and gives the place behind them.
fn write_row(out: &mut [u8], at: usize, row: Row) -> usize
    requires { (at ≤ 65536) × (row.steps ≤ most_steps) }
    ensures value { (result ≡ at + length (row_lines row)) × (result ≤ at + 504) }
    ensures out_after { out.new ≡ sets out.old at (row_lines row) }
{
    let mut place = at;
    // Counted, as line_of takes the place of the step.
    for j in 0..row.steps as usize {
        let line = sheet_line::line_of(row, j);
        words::overwrite(out, place, &line.bytes[..line.length]);
        place += line.length;
    }
    place
}

// Writes the sheet of a load at the output's front, and gives how many bytes it has. Bytes that
// would lie past the end are not written, so into a small output it only measures.
fn write_rows(out: &mut [u8], load: Load) -> usize
    requires { check_load load ≡ Ok tt }
    ensures value { result ≡ length (sheet_bytes load) }
    ensures out_after { out.new ≡ sets out.old 0 (sheet_bytes load) }
{
    let mut at: usize = 0;
    for row in &load.row[..load.rows as usize] {
        at = write_row(out, at, *row);
    }
    at
}

// Writes a load as its sheet at the output's front, and gives the length. Refuses, in this order, a
// load that its check refuses, one with a class that is not 0 or a head that is not 1 (22), and an
// output that is shorter than the sheet (9); a refusal alters no byte. Bytes past the sheet stay.
pub fn write_sheet(load: Load, out: &mut [u8]) -> Result<usize, Refusal>
    ensures { WriteSheet load out.old result out.new }
{
    load::check_plain(load)?;
    let mut nowhere = [0u8; 1];
    let size = write_rows(&mut nowhere, load);
    if out.len() < size {
        return Err(Refusal::OutputShort);
    }
    Ok(write_rows(out, load))
}
