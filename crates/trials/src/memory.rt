// A load in memory, field by field and unchecked: its number of rows (1 byte) and 24 rows. A row is
// its identifier (4 bytes), its box (4), its phase (4), its deadline (4), its number of steps (1)
// and of windows (1), its class (1), its head (1), 8 steps and 4 windows. A step is its cost (2)
// and its wait (2), a window its first step (1), its last (1) and its limit (2).
// The other program of trials has the same file (D77).
ghost use Rattle.std.specs.Prelude.{◌≤◌};

use load::{BoxNumber, Identifier, Load, MOST_STEPS, MOST_WINDOWS, Row, Step, Window, zero_load};
use words::{byte_at, number16_at, number32_at};

// The bytes of a load.
pub const LOAD_SIZE: usize = 1633;

const ROWS_AT: usize = 1;

const ROW_SIZE: usize = 68;

const STEPS_AT: usize = 20;

const WINDOWS_AT: usize = 52;

const PART_SIZE: usize = 4;

// Gives the steps of the row at a place.
fn steps_from(bytes: &[u8], row: usize) -> [Step; MOST_STEPS]
    requires { row ≤ 4096 }
{
    let mut steps = [Step::default(); MOST_STEPS];
    for (j, step) in steps.iter_mut().enumerate() {
        let at = row + STEPS_AT + PART_SIZE * j;
        *step = Step {
            cost: number16_at(bytes, at),
            wait: number16_at(bytes, at + 2),
        };
    }
    steps
}

// Gives the windows of the row at a place.
fn windows_from(bytes: &[u8], row: usize) -> [Window; MOST_WINDOWS]
    requires { row ≤ 4096 }
{
    let mut windows = [Window::default(); MOST_WINDOWS];
    for (k, window) in windows.iter_mut().enumerate() {
        let at = row + WINDOWS_AT + PART_SIZE * k;
        *window = Window {
            first: byte_at(bytes, at),
            last: byte_at(bytes, at + 1),
            limit: number16_at(bytes, at + 2),
        };
    }
    windows
}

// Gives the row at a place.
fn row_from(bytes: &[u8], at: usize) -> Row
    requires { at ≤ 4096 }
{
    Row {
        identifier: Identifier(number32_at(bytes, at)),
        box_number: BoxNumber(number32_at(bytes, at + 4)),
        phase: number32_at(bytes, at + 8),
        deadline: number32_at(bytes, at + 12),
        steps: byte_at(bytes, at + 16),
        windows: byte_at(bytes, at + 17),
        class: byte_at(bytes, at + 18),
        head: byte_at(bytes, at + 19),
        step: steps_from(bytes, at),
        window: windows_from(bytes, at),
    }
}

// Gives the load that the bytes spell.
pub fn load_from(bytes: &[u8]) -> Load {
    let mut load = zero_load();
    load.rows = byte_at(bytes, 0);
    for (i, row) in load.row.iter_mut().enumerate() {
        *row = row_from(bytes, ROWS_AT + ROW_SIZE * i);
    }
    load
}
