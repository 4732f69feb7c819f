// The lines of a sheet in their order, each beside the one before it: 18, 19 and 20, on one line in
// this order, and at the end a window of one step.
ghost use Rattle.std.specs.Prelude.{◌&&◌, ◌≡◌, true};
ghost use Rattle.refusals.specs.FirstMet.{first_met};
ghost use Rattle.sheet_line.specs.Calls.{no_line};
ghost use Rattle.sheet.specs.LineFaults.{row_differs, line_tests, end_tests, lines_fault};
ghost use Rattle.sheet.specs.inner.Walk.{goes_on_from};

use crate::line_marks::{dash_alone, is_limit, limit_alone};
use refusals::Refusal;
use sheet_line::{Line, Mark, line_at};

// Gives what stands before the first line.
fn no_line() -> Line
    ensures { result ≡ no_line }
{
    Line {
        identifier: 0,
        box_number: 0,
        phase: 0,
        deadline: 0,
        cost: 0,
        wait: 0,
        mark: Mark::Nothing,
    }
}

// Tells whether the line at a place goes on with the row of the line before: none stands before the
// sheet's first.
fn goes_on_from(at: usize, before: Line, line: Line) -> bool
    ensures { result ≡ goes_on_from at before line }
{
    0 < at && line.identifier == before.identifier
}

// Tells whether a line goes on with the row of the line before, and box, phase or deadline differs.
fn row_differs(goes_on: bool, before: Line, line: Line) -> bool
    ensures { result ≡ (goes_on && row_differs line before) }
{
    goes_on
        && (line.box_number != before.box_number
            || line.phase != before.phase
            || line.deadline != before.deadline)
}

// Checks a line beside the line before: 19, then 20.
#[tactic(auto, unfolding(crate::specs::LineFaults::line_tests))]
fn check_line(goes_on: bool, before: Line, line: Line) -> Result<(), Refusal>
    ensures { result ≡ first_met (line_tests true goes_on before line) }
{
    if row_differs(goes_on, before, line) {
        return Err(Refusal::RowDiffers);
    }
    if dash_alone(goes_on, before.mark, line.mark) || limit_alone(goes_on, before.mark, line.mark) {
        return Err(Refusal::WindowDash);
    }
    Ok(())
}

// Checks the end behind the last line: 20 where a window has one step.
fn check_end(before: Line) -> Result<(), Refusal>
    ensures { result ≡ first_met (end_tests before) }
{
    if is_limit(before.mark) {
        return Err(Refusal::WindowDash);
    }
    Ok(())
}

// Checks the lines of a sheet in their order, and then its end: what stands at a line's place is 18
// where it is no line.
pub fn check_lines(bytes: &[u8]) -> Result<(), Refusal>
    ensures { result ≡ lines_fault bytes.now }
{
    let mut at = 0;
    let mut before = no_line();
    while at < bytes.len() {
        let Some(read) = line_at(bytes, at) else {
            return Err(Refusal::LineMalformed);
        };
        let goes_on = goes_on_from(at, before, read.line);
        check_line(goes_on, before, read.line)?;
        at = read.next;
        before = read.line;
    }
    check_end(before)
}
