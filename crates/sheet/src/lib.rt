// Route sheets: a load read from comma-separated lines, one a step, and written as them. A sheet is
// refused with 18, 19 or 20, or with its load's own numbers; a load to be written with its own
// numbers, 22 or 9.
#![tactic(auto)]

mod line_marks;
mod lines;
mod reading;
mod row_parts;
mod rows;
mod writing;

pub use reading::read_sheet;
pub use writing::write_sheet;

// The most bytes that the sheet of an accepted load has.
pub const MOST_SHEET_BYTES: usize = 9528;
