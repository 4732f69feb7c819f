// Whether a load can be written where no class and no head is carried: as version 1 of the load
// file, and as a sheet. Both are read as class 0 and head 1.
ghost use Rattle.std.specs.Prelude.{◌≡◌, ◌≤◌};
ghost use Rattle.counting.specs.Sums.{any_to};
ghost use Rattle.load.specs.Load.{most_rows, row_at};
ghost use Rattle.load.specs.Plain.{not_plain};
ghost use Rattle.load.specs.Calls.{CheckPlain};

use crate::check::check_load;
use crate::ranges::ONLY_HEAD;
use crate::{Load, Row};
use refusals::Refusal;

// Says whether a row has a class that is not 0 or a head that is not 1.
fn is_not_plain(row: Row) -> bool
    ensures { result ≡ not_plain row }
{
    row.class != 0 || row.head != ONLY_HEAD
}

// Says whether some row of a load, of at most 24, has one.
fn any_not_plain(load: Load) -> bool
    requires { load.rows ≤ most_rows }
    ensures { result ≡ any_to (λ i. not_plain (row_at load i)) load.rows }
{
    let rows = load.rows as usize;
    // Counted, so that the place of the first row is an operand: an edit tries another.
    for i in 0..rows {
        let row = load.row[i];
        if is_not_plain(row) {
            return true;
        }
    }
    false
}

// Checks a load that is to be written as version 1 or as a sheet: refuses with the first of its own
// numbers that is met, and then with 22.
#[tactic(auto, unfolding(crate::specs::Plain::check_plain))]
pub fn check_plain(load: Load) -> Result<(), Refusal>
    ensures { CheckPlain load result }
{
    check_load(load)?;
    if any_not_plain(load) {
        return Err(Refusal::NotCarried);
    }
    Ok(())
}
