// The text of a step's line, put together piece by piece: six numbers, each with a comma behind it;
// a limit, a dash or nothing; CR LF.
ghost use Rattle.std.specs.Prelude.{cond, ◌≡◌, ◌≤◌, ◌<◌, eqb, length};
ghost use Rattle.std.specs.Bool.{OnTrue};
ghost use Rattle.counting.specs.Lists.{join_to, member_at};
ghost use Rattle.words.specs.Decimal.{decimal};
ghost use Rattle.load.specs.Load.{shown};
ghost use Rattle.load.specs.View.{in_window};
ghost use Rattle.sheet_line.specs.declared.Mark.TheVariants.{Dash, Limit};
ghost use Rattle.sheet_line.specs.LineText.{field_bytes, mark_bytes};
ghost use Rattle.sheet_line.specs.Calls.{LineOf};
ghost use Rattle.sheet_line.specs.inner.Behind.{behind, Marked};

use crate::signs::{COMMA, DASH, FEED, NUMBERS, RETURN};
use crate::{LineText, MOST_LINE_BYTES};
use load::{MOST_WINDOWS, Row, Window};

// Gives a text with bytes behind it. Here and below a text is asked to be so short that its length
// cannot wrap.
fn with_bytes(text: LineText, bytes: &[u8]) -> LineText
    requires { (text.length ≤ 4096) × (length bytes.now ≤ 4096) }
    ensures { result ≡ behind text bytes.now }
{
    let mut written = text.bytes;
    words::overwrite(&mut written, text.length, bytes);
    LineText {
        length: text.length + bytes.len(),
        bytes: written,
    }
}

// Gives a text with a number behind it.
fn with_number(text: LineText, number: u32) -> LineText
    requires { text.length ≤ 4096 }
    ensures { result ≡ behind text (decimal number) }
{
    let word = words::decimal_of(number);
    with_bytes(text, &word.bytes[..word.length])
}

// Gives a text with a number and a comma behind it.
fn with_field(text: LineText, number: u32) -> LineText
    requires { text.length ≤ 1024 }
    ensures { result ≡ behind text (field_bytes number) }
{
    with_bytes(with_number(text, number), &[COMMA])
}

// Gives a text with the numbers behind it, a comma behind each.
fn with_fields(text: LineText, numbers: &[u32; NUMBERS]) -> LineText
    requires { text.length ≤ 512 }
    ensures { result
        ≡ behind text (join_to (λ k. field_bytes (member_at numbers.now k)) 6) }
{
    let mut held = text;
    for number in numbers {
        held = with_field(held, *number);
    }
    held
}

// Says whether the step at a place is in a window.
fn is_within(window: Window, j: usize) -> bool
    ensures says { result ≡ in_window (shown j) window }
    ensures shown_fits { OnTrue result (j < 255) }
{
    j < usize::from(window.last) && usize::from(window.first) <= j + 1
}

// Gives a text with the mark behind it of a step in a window: the limit on its first step, a dash
// on its other steps.
fn with_mark_in(text: LineText, window: Window, j: usize) -> LineText
    requires { (text.length ≤ 512) × (j < 255) }
    ensures is { result
        ≡ behind text
        (mark_bytes (cond (eqb (shown j) window.first) (Limit window.limit) Dash)) }
    ensures few { length (mark_bytes (cond (eqb (shown j) window.first) (Limit window.limit) Dash))
        ≤ 5 }
{
    if j + 1 == usize::from(window.first) {
        return with_number(text, u32::from(window.limit));
    }
    with_bytes(text, &[DASH])
}

// Gives a text with a step's mark behind it, by the first window that the step is in; where it is
// in none, the text.
fn with_mark(text: LineText, row: Row, j: usize) -> LineText
    requires { text.length ≤ 512 }
    ensures { Marked text row j result }
{
    let used = usize::from(row.windows).min(MOST_WINDOWS);
    for window in &row.window[..used] {
        if is_within(*window, j) {
            return with_mark_in(text, *window, j);
        }
    }
    text
}

// Gives the text of the line of step j of a row.
pub fn line_of(row: Row, j: usize) -> LineText
    ensures { LineOf row j result }
{
    let step = load::step_at(row, j);
    let numbers = [
        row.identifier.0,
        row.box_number.0,
        row.phase,
        row.deadline,
        u32::from(step.cost),
        u32::from(step.wait),
    ];
    let nothing = LineText {
        length: 0,
        bytes: [0; MOST_LINE_BYTES],
    };
    let marked = with_mark(with_fields(nothing, &numbers), row, j);
    with_bytes(marked, &[RETURN, FEED])
}
