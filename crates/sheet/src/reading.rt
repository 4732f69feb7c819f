// Reading a sheet: its lines in their order, then its rows, and then the check of the load.
ghost use Rattle.std.specs.Prelude.{◌≡◌, Ok};
ghost use Rattle.sheet.specs.LineFaults.{lines_fault};
ghost use Rattle.sheet.specs.Reading.{read_sheet};
ghost use Rattle.sheet.specs.Calls.{ReadSheet};

use crate::lines::check_lines;
use crate::rows::row_from;
use load::{Load, MOST_ROWS};
use refusals::Refusal;

// Reads the rows of a sheet, of which there are places for 24, and checks their load: too many rows
// are 3 before anything else is found in them.
fn read_rows(bytes: &[u8]) -> Result<Load, Refusal>
    requires { lines_fault bytes.now ≡ Ok tt }
    ensures { result ≡ read_sheet bytes.now }
{
    let mut row = [load::zero_row(); MOST_ROWS];
    let mut rows = 0;
    let mut next = 0;
    for kept in &mut row {
        if bytes.len() <= next {
            break;
        }
        let read = row_from(bytes, next);
        *kept = read.row;
        rows += 1;
        next = read.next;
    }
    if next < bytes.len() {
        return Err(Refusal::OutOfRange);
    }
    let load = Load { rows, row };
    load::check_load(load)?;
    Ok(load)
}

// Reads a sheet: gives the first refusal that is met, 18 to 20 and then the load's own numbers, or
// the load.
pub fn read_sheet(bytes: &[u8]) -> Result<Load, Refusal>
    ensures { ReadSheet bytes.now result }
{
    check_lines(bytes)?;
    read_rows(bytes)
}
