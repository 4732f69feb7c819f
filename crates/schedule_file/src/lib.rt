// The schedule file: writing one, and what it is made of. The slots are lent as a slice of slot
// records, or held in an array of 256 places, of which the first so many count; or a caller has
// them one by one, asks for the room, and writes the head and each record itself.
#![tactic(auto)]

mod records;
mod write;

pub use records::{HEADER_SIZE, SLOT_SIZE, check_room, head_record, slot_record};
pub use write::{write_array, write_schedule};
