// The parts of a load file, as they are read: whether a record that is due stands at a place, and
// what it spells. A byte past the end reads as 0.
ghost use Rattle.std.specs.Prelude.{◌≡◌, ◌+◌, ◌≤◌, cond, length};
ghost use Rattle.words.specs.LittleEndian.{byte_at};
ghost use Rattle.refusals.specs.FirstMet.{first_met};
ghost use Rattle.load_records.specs.Records.{carries, newest, row_kind, step_kind, window_kind};
ghost use Rattle.load_file.specs.Places.{step_in, window_in, version_said};
ghost use Rattle.load_file.specs.Reading.{due_tests};
ghost use Rattle.load_file.specs.inner.ReadingSteps.{kind_of, own_fields};

use load::{BoxNumber, Identifier, MOST_STEPS, MOST_WINDOWS, ONLY_HEAD, Row, Step, Window};
use load_records::{ROW_SIZE_1, STEP_SIZE, VERSION_2, WINDOW_SIZE};
use refusals::Refusal;
use words::{byte_at, number16_at, number32_at};

// Checks a record that is due at a place: that the file holds it whole, and then its mark. What is
// read of a record is read of its own bytes, so that its numbers are not asked where the file ends.
pub fn check_due(bytes: &[u8], at: usize, mark: [u8; 2], size: usize) -> Result<(), Refusal>
    requires { (at ≤ 8192) × (2 ≤ size) × (size ≤ (row_kind newest).size) }
    ensures { result ≡ first_met (due_tests (kind_of mark size) bytes.now at) }
{
    if bytes.len() < at + size {
        return Err(Refusal::FileShort);
    }
    let record = &bytes[at..at + size];
    if number16_at(record, 0) != u16::from_le_bytes(mark) {
        return Err(Refusal::MarkDiffers);
    }
    Ok(())
}

// Gives the step that the record at a place spells.
pub fn step_in(bytes: &[u8], at: usize) -> Step
    requires { at + step_kind.size ≤ length bytes.now }
    ensures { result ≡ step_in bytes.now at }
{
    let record = &bytes[at..at + STEP_SIZE];
    Step {
        cost: number16_at(record, 2),
        wait: number16_at(record, 4),
    }
}

// Gives the window that the record at a place spells.
pub fn window_in(bytes: &[u8], at: usize) -> Window
    requires { at + window_kind.size ≤ length bytes.now }
    ensures { result ≡ window_in bytes.now at }
{
    let record = &bytes[at..at + WINDOW_SIZE];
    Window {
        first: byte_at(record, 2),
        last: byte_at(record, 3),
        limit: number16_at(record, 4),
    }
}

// Gives a byte that version 2 alone has, at its place: version 1 has none, and is read as another
// value.
fn said_in(bytes: &[u8], at: usize, otherwise: u8) -> u8
    ensures { result ≡ cond (carries (version_said bytes.now)) (byte_at bytes.now at) otherwise }
{
    if byte_at(bytes, 2) == VERSION_2 {
        byte_at(bytes, at)
    } else {
        otherwise
    }
}

// Gives the fields of the row's own record at a place, with no steps and no windows read yet.
pub fn own_fields(bytes: &[u8], at: usize) -> Row
    requires { at + (row_kind 1).size ≤ length bytes.now }
    ensures { result ≡ own_fields bytes.now at }
{
    let record = &bytes[at..at + ROW_SIZE_1];
    Row {
        identifier: Identifier(number32_at(record, 2)),
        box_number: BoxNumber(number32_at(record, 6)),
        phase: number32_at(record, 10),
        deadline: number32_at(record, 14),
        steps: byte_at(record, 18),
        windows: byte_at(record, 19),
        class: said_in(bytes, at + 20, 0),
        head: said_in(bytes, at + 21, ONLY_HEAD),
        step: [Step::default(); MOST_STEPS],
        window: [Window::default(); MOST_WINDOWS],
    }
}
