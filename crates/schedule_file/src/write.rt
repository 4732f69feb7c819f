// The writing of a schedule file, the numbers of its slots unchecked: record by record, straight to
// the output.
ghost use Rattle.schedule_file.specs.Calls.{WriteArray, WriteSchedule};

use crate::records::{HEADER_SIZE, SLOT_SIZE, check_room, head_record, slot_record};
use refusals::Refusal;
use rules::{SLOT_PLACES, Slot};
use schedule::at_most_places;
use words::overwrite;

// Writes the schedule file of the slots, their numbers unchecked; refuses with 3 for more than 192,
// then 9. A refusal alters no byte, and bytes past the file stay.
pub fn write_schedule(slots: &[Slot], out: &mut [u8]) -> Result<(), Refusal>
    ensures { WriteSchedule slots.now out.old result out.new }
{
    check_room(slots.len(), out.len())?;
    overwrite(out, 0, &head_record(slots.len()));
    for (k, slot) in slots.iter().enumerate() {
        let record = slot_record(slot.row, slot.step, slot.start);
        overwrite(out, HEADER_SIZE + SLOT_SIZE * k, &record);
    }
    Ok(())
}

// Writes the schedule file of the first n slots of an array, at most 256, as write_schedule does
// that of a lent slice.
// An array and a count: WriteArray takes both, as a caller holds them so (D52).
pub fn write_array(slots: [Slot; SLOT_PLACES], n: usize, out: &mut [u8]) -> Result<(), Refusal>
    ensures { WriteArray slots n out.old result out.new }
{
    write_schedule(&slots[..at_most_places(n)], out)
}
