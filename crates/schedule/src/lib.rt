// The check of a schedule. The slots are lent as a slice of slot records, or held in an array of
// 256 places, of which the first so many count.
#![tactic(auto)]

mod check;
mod found;
mod seen;

pub use check::{at_most_places, check_array, check_schedule};
use load::{MOST_ROWS, MOST_STEPS};
pub use rules::SLOT_PLACES;

// A schedule has at most 192 slots: 24 rows of 8 steps.
pub const MOST_SLOTS: usize = MOST_ROWS * MOST_STEPS;
