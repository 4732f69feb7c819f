// The steps of a row of a load file, as they are read: each record is checked that it is due, then
// the step is asked and kept.
ghost use Rattle.std.specs.Prelude.{◌++◌, ◌≡◌, ◌+◌, ◌≤◌};
ghost use Rattle.refusals.specs.FirstMet.{first_met};
ghost use Rattle.refusals.specs.Given.{given};
ghost use Rattle.load.specs.Load.{most_steps};
ghost use Rattle.load.specs.Faults.{step_numbers};
ghost use Rattle.load_records.specs.Records.{row_kind, step_kind};
ghost use Rattle.load_file.specs.Places.{version_said, step_in, steps_said};
ghost use Rattle.load_file.specs.Reading.{due_tests, steps_fault};
ghost use Rattle.load_file.specs.inner.ReadingSteps.{steps_from};

use crate::read_parts::{check_due, step_in};
use load::{MOST_STEPS, Step};
use load_records::{STEP_MARK, STEP_SIZE};
use refusals::Refusal;

// Reads the step whose record is due at a place, and which is its row's last or not.
fn read_step(bytes: &[u8], place: usize, is_last: bool) -> Result<Step, Refusal>
    requires { place ≤ 8192 }
    ensures { result
        ≡ given (first_met (due_tests step_kind bytes.now place
        ++ step_numbers (step_in bytes.now place) is_last)) (step_in bytes.now place) }
{
    check_due(bytes, place, STEP_MARK, STEP_SIZE)?;
    let step = step_in(bytes, place);
    load::check_step(step, is_last)?;
    Ok(step)
}

// Reads the steps, of which there are so many, of the row whose own record stands at a place, from
// the place behind it on. A step's number says where its record stands, whether it is the last, and
// which place keeps it.
pub fn read_steps(
    bytes: &[u8],
    at: usize,
    from: usize,
    count: usize,
) -> Result<[Step; MOST_STEPS], Refusal>
    requires from_bound { (from ≤ 5000) × (from ≡ at + (row_kind (version_said bytes.now)).size) }
    requires count_value { (count ≡ steps_said bytes.now at) × (count ≤ most_steps) }
    ensures { result ≡ given (steps_fault bytes.now at) (steps_from bytes.now from count) }
{
    let mut kept = [Step::default(); MOST_STEPS];
    for j in 0..count {
        kept[j] = read_step(bytes, from + STEP_SIZE * j, j + 1 == count)?;
    }
    Ok(kept)
}
