// The windows of a row of a load file, as they are read: each record is checked that it is due,
// then the window is asked and kept.
ghost use Rattle.std.specs.Prelude.{◌++◌, ◌≡◌, ◌≤◌};
ghost use Rattle.refusals.specs.FirstMet.{first_met};
ghost use Rattle.refusals.specs.Given.{given};
ghost use Rattle.load.specs.Load.{most_windows};
ghost use Rattle.load.specs.Faults.{window_numbers};
ghost use Rattle.load_records.specs.Records.{window_kind};
ghost use Rattle.load_file.specs.Places.{window_in, steps_said, windows_said, step_place};
ghost use Rattle.load_file.specs.Reading.{due_tests, windows_fault};
ghost use Rattle.load_file.specs.inner.ReadingSteps.{windows_from, with_steps};

use crate::read_parts::{check_due, window_in};
use load::{MOST_WINDOWS, Row, Window};
use load_records::{WINDOW_MARK, WINDOW_SIZE};
use refusals::Refusal;

// Reads the window whose record is due at a place, of a row whose steps are read, behind a window
// that ends at a step.
fn read_window(bytes: &[u8], place: usize, row: Row, before: u8) -> Result<Window, Refusal>
    requires { place ≤ 8192 }
    ensures { result
        ≡ given (first_met (due_tests window_kind bytes.now place
        ++ window_numbers row (window_in bytes.now place) before)) (window_in bytes.now place) }
{
    check_due(bytes, place, WINDOW_MARK, WINDOW_SIZE)?;
    let window = window_in(bytes, place);
    load::check_window(row, window, before)?;
    Ok(window)
}

// Reads the windows, of which there are so many, of the row whose own record stands at a place and
// whose steps are read, from the place behind them on. It is no twin of the steps' reading: each
// window is asked against the row and the window before it.
pub fn read_windows(
    bytes: &[u8],
    at: usize,
    from: usize,
    count: usize,
    row: Row,
) -> Result<[Window; MOST_WINDOWS], Refusal>
    requires from_bound { (from ≤ 5000) × (from ≡ step_place bytes.now at (steps_said bytes.now at))
        × (row ≡ with_steps bytes.now at) }
    requires count_value { (count ≡ windows_said bytes.now at) × (count ≤ most_windows) }
    ensures { result ≡ given (windows_fault bytes.now at) (windows_from bytes.now from count) }
{
    let mut kept = [Window::default(); MOST_WINDOWS];
    let mut before: u8 = 0;
    for k in 0..count {
        let window = read_window(bytes, from + WINDOW_SIZE * k, row, before)?;
        before = window.last;
        kept[k] = window;
    }
    Ok(kept)
}
