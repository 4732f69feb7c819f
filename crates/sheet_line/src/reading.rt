// Reading one line: six numbers, each with a comma behind it; a limit, a dash or nothing; CR LF.
// Each is read from where the one before ended.
ghost use Rattle.std.specs.Prelude.{◌≡◌};
ghost use Rattle.sheet_line.specs.Calls.{LineAt};
ghost use Rattle.sheet_line.specs.inner.Fields.{FieldAt, FieldsAt, MarkReadAt, ends_at};

use crate::signs::{COMMA, DASH, FEED, NUMBERS, RETURN};
use crate::{Line, LineRead, Mark};

// A number with a comma behind it, and the place behind the comma.
#[derive(Clone, Copy)]
pub struct Field {
    pub value: u64,
    pub next: usize,
}

// The numbers of a line, and the place behind them.
#[derive(Clone, Copy)]
pub struct Fields {
    pub values: [u64; NUMBERS],
    pub next: usize,
}

// The mark at a place, and the place behind it.
#[derive(Clone, Copy)]
pub struct MarkRead {
    pub mark: Mark,
    pub next: usize,
}

// Reads the number with a comma behind it at a place.
fn field_at(bytes: &[u8], place: usize) -> Option<Field>
    ensures { FieldAt bytes.now place result }
{
    let digits = words::decimal_at(bytes, place)?;
    let behind = place + digits.count;
    if words::byte_at(bytes, behind) != COMMA {
        return None;
    }
    Some(Field {
        value: digits.value,
        next: behind + 1,
    })
}

// Reads the numbers of the line at a place.
fn fields_at(bytes: &[u8], at: usize) -> Option<Fields>
    ensures { FieldsAt bytes.now at result }
{
    let mut values = [0; NUMBERS];
    let mut next = at;
    for value in values.iter_mut() {
        let field = field_at(bytes, next)?;
        *value = field.value;
        next = field.next;
    }
    Some(Fields { values, next })
}

// Reads the mark at a place: a dash, a limit, or nothing.
fn mark_at(bytes: &[u8], place: usize) -> MarkRead
    ensures { MarkReadAt bytes.now place result }
{
    if words::byte_at(bytes, place) == DASH {
        return MarkRead {
            mark: Mark::Dash,
            next: place + 1,
        };
    }
    match words::decimal_at(bytes, place) {
        Some(digits) => MarkRead {
            mark: Mark::Limit(digits.value),
            next: place + digits.count,
        },
        None => MarkRead {
            mark: Mark::Nothing,
            next: place,
        },
    }
}

// Says whether CR LF stand at a place.
fn ends_at(bytes: &[u8], place: usize) -> bool
    ensures { result ≡ ends_at bytes.now place }
{
    words::byte_at(bytes, place) == RETURN && words::byte_at(bytes, place + 1) == FEED
}

// Reads the line at a place, where one stands there.
pub fn line_at(bytes: &[u8], at: usize) -> Option<LineRead>
    ensures { LineAt bytes.now at result }
{
    let fields = fields_at(bytes, at)?;
    let marked = mark_at(bytes, fields.next);
    if !ends_at(bytes, marked.next) {
        return None;
    }
    let [identifier, box_number, phase, deadline, cost, wait] = fields.values;
    Some(LineRead {
        line: Line {
            identifier,
            box_number,
            phase,
            deadline,
            cost,
            wait,
            mark: marked.mark,
        },
        next: marked.next + 2,
    })
}
