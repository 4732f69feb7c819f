// A row, as its lines say it: its own fields, its steps, and the windows that its marks spell, with
// the numbers cut to their fields.
ghost use Rattle.std.specs.Prelude.{◌≡◌, true, length, ◌+◌, ◌<◌, ◌≤◌};
ghost use Rattle.load.specs.Load.{most_steps, shown};
ghost use Rattle.sheet_line.specs.Line.{is_line, line_in, next_line};
ghost use Rattle.sheet.specs.Lines.{line_from};
ghost use Rattle.sheet.specs.SheetRows.{row_of, window_places};
ghost use Rattle.sheet.specs.inner.Narrow.{Marked, narrow_row, narrow_window};
ghost use Rattle.sheet.specs.inner.Walk.{
  LinesStand,
  kept_step,
  kept_steps,
  dashes_from,
  kept_windows,
};

use crate::line_marks::is_dash;
use load::{BoxNumber, Identifier, MOST_STEPS, MOST_WINDOWS, ONLY_HEAD, Row, Step, Window};
use sheet_line::{Line, LineRead, Mark, line_at};

// A row of at most eight lines, as it stands in a sheet: so many lines from a place on, which 18 to
// 20 do not refuse.
#[derive(Clone, Copy)]
pub struct SheetRow<'a> {
    pub bytes: &'a [u8],
    pub at: usize,
    pub count: usize,
    ghost count_some: { 0 < count },
    ghost count_most: { count ≤ most_steps },
    ghost lines_stand: { LinesStand bytes.now at count },
    ghost marked: { Marked (λ j. (line_from bytes.now at j).mark) count },
}

// The windows of a row: so many, and zeros in the places behind them.
// An array and a count, as the crate has no heap: a Row holds its windows in the same form.
#[derive(Clone, Copy)]
struct Windows {
    count: u8,
    window: [Window; MOST_WINDOWS],
}

// Reads the line at a place where one stands.
pub fn line_there(bytes: &[u8], at: usize) -> LineRead
    requires { is_line bytes.now at ≡ true }
    ensures { result ≡ record { line = line_in bytes.now at; next = next_line bytes.now at } }
{
    line_at(bytes, at).unwrap()
}

// Gives the step that a line says. A number that does not fit its field is refused with 3, and so
// is what is kept for it: 0 where the range begins with 1, else the largest.
fn step_of(line: Line) -> Step
    ensures { result ≡ kept_step line }
{
    Step {
        cost: u16::try_from(line.cost).unwrap_or(0),
        wait: u16::try_from(line.wait).unwrap_or(u16::MAX),
    }
}

// Gives how many of so many lines from a place on have a dash, before the first that has none.
fn dashes_from(bytes: &[u8], from: usize, left: usize) -> usize
    requires { LinesStand bytes.now from left }
    ensures { result ≡ dashes_from bytes.now from left }
{
    let mut at = from;
    for k in 0..left {
        let read = line_there(bytes, at);
        if !is_dash(read.line.mark) {
            return k;
        }
        at = read.next;
    }
    left
}

// Gives the window that begins at step j and has so many steps behind it.
fn window_of(j: usize, behind: usize, limit: u64) -> Window
    requires { j + behind ≤ most_steps }
    ensures { result
        ≡ narrow_window (record { first = shown j; last = shown j + behind; limit = limit }) }
{
    Window {
        first: (j + 1) as u8,
        last: (j + 1 + behind) as u8,
        limit: u16::try_from(limit).unwrap_or(0),
    }
}

impl SheetRow<'_> {
    // Gives the steps, and zeros in the places behind them.
    fn steps(&self) -> [Step; MOST_STEPS]
        ensures { result ≡ kept_steps self.now.bytes.now self.now.at self.now.count }
    {
        let bytes = self.bytes;
        let mut steps = [Step::default(); MOST_STEPS];
        let mut at = self.at;
        for step in &mut steps[..self.count] {
            let read = line_there(bytes, at);
            *step = step_of(read.line);
            at = read.next;
        }
        steps
    }

    // Gives the windows that the marks spell: each begins with a limit, and goes on as long as
    // dashes follow.
    fn windows(&self) -> Windows
        ensures { result
            ≡ record {
              count = length (kept_windows self.now.bytes.now self.now.at self.now.count);
              window =
                  window_places (kept_windows self.now.bytes.now self.now.at self.now.count);
            } }
    {
        let bytes = self.bytes;
        let count = self.count;
        let mut window = [Window::default(); MOST_WINDOWS];
        let mut stored = 0;
        let mut at = self.at;
        for j in 0..count {
            let read = line_there(bytes, at);
            at = read.next;
            if let Mark::Limit(limit) = read.line.mark {
                let behind = dashes_from(bytes, at, count - (j + 1));
                window[stored] = window_of(j, behind, limit);
                stored += 1;
            }
        }
        Windows {
            count: stored as u8,
            window,
        }
    }

    // Gives the row. No line carries a class or a head: they are 0 and the only head. A number that
    // does not fit its field is refused with 3, and so is what is kept for it: 0 where the range
    // begins with 1, else the largest.
    pub(crate) fn row(&self) -> Row
        ensures { result
            ≡ narrow_row (row_of (line_from self.now.bytes.now self.now.at) self.now.count) }
    {
        let line = line_there(self.bytes, self.at).line;
        let step = self.steps();
        let Windows { count, window } = self.windows();
        Row {
            identifier: Identifier(u32::try_from(line.identifier).unwrap_or(0)),
            box_number: BoxNumber(u32::try_from(line.box_number).unwrap_or(0)),
            phase: u32::try_from(line.phase).unwrap_or(u32::MAX),
            deadline: u32::try_from(line.deadline).unwrap_or(0),
            steps: self.count as u8,
            windows: count,
            class: 0,
            head: ONLY_HEAD,
            step,
            window,
        }
    }
}
