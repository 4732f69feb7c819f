// The rows of a sheet that 18 to 20 do not refuse: how many lines each has, and the row that they
// say.
ghost use Rattle.std.specs.Prelude.{◌≡◌};
ghost use Rattle.sheet.specs.Lines.{line_place};
ghost use Rattle.sheet.specs.SheetRows.{steps_from};
ghost use Rattle.sheet.specs.inner.Narrow.{kept_from};
ghost use Rattle.sheet.specs.inner.Walk.{RowStands};

use crate::row_parts::{SheetRow, line_there};
use load::{MOST_STEPS, Row};

// A row, and the place behind its lines.
#[derive(Clone, Copy)]
pub struct RowRead {
    pub row: Row,
    pub next: usize,
}

// How many lines a row has, and the place behind them.
#[derive(Clone, Copy)]
struct Run {
    steps: usize,
    next: usize,
}

// Counts the lines of the row that begins at a place: it goes on as long as the identifier stays.
fn run_from(bytes: &[u8], at: usize) -> Run
    requires { RowStands bytes.now at }
    ensures { result
        ≡ record {
          steps = steps_from bytes.now at;
          next = line_place bytes.now at (steps_from bytes.now at);
        } }
{
    let first = line_there(bytes, at);
    let mut steps = 1;
    let mut next = first.next;
    while next < bytes.len() {
        let read = line_there(bytes, next);
        if read.line.identifier != first.line.identifier {
            break;
        }
        steps += 1;
        next = read.next;
    }
    Run { steps, next }
}

// Reads the row that begins at a place. For a row of more than eight lines, which the check of the
// load refuses with 3, a row of zeros is kept, which it refuses with 3 too.
pub fn row_from(bytes: &[u8], at: usize) -> RowRead
    requires { RowStands bytes.now at }
    ensures { result
        ≡ record {
          row = kept_from bytes.now at;
          next = line_place bytes.now at (steps_from bytes.now at);
        } }
{
    let Run { steps, next } = run_from(bytes, at);
    let row = if MOST_STEPS < steps {
        load::zero_row()
    } else {
        let there = SheetRow {
            bytes,
            at,
            count: steps,
        };
        there.row()
    };
    RowRead { row, next }
}
