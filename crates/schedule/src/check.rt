// The check of a schedule against its load. The slots are lent as a slice of slot records, the form
// that the scope asks for by name: check_at takes a slot apart, and calls a check of plain numbers.
ghost use Rattle.std.specs.Prelude.{◌≡◌};
ghost use Rattle.refusals.specs.FirstMet.{first_met};
ghost use Rattle.refusals.specs.Given.{if_good};
ghost use Rattle.schedule.specs.Calls.{AtMostPlaces, CheckSchedule, CheckArray};
ghost use Rattle.schedule.specs.inner.Seen.{slot_tests, with_slot};

use crate::SLOT_PLACES;
use crate::found::check_slot;
use crate::seen::Seen;
use load::{Load, check_load, steps_in};
use refusals::Refusal;
use rules::Slot;

// Takes a slot apart: checks it by its row, its step and its start, and keeps it; or refuses with
// the first of 13 to 17 that is met, and keeps nothing.
fn check_at(load: &Load, seen: &mut Seen, slot: &Slot) -> Result<(), Refusal>
    ensures found { result
        ≡ first_met (slot_tests load.now seen.old slot.now.row slot.now.step slot.now.start) }
    ensures kept { seen.new
        ≡ if_good result
        (with_slot load.now seen.old slot.now.row slot.now.step slot.now.start) seen.old }
{
    check_slot(load, seen, slot.row, slot.step, slot.start)
}

// Checks the slots of a schedule against its load; refuses with the first of the load's own
// numbers, then 12, then slot by slot 13 to 17 that is met.
pub fn check_schedule(load: Load, slots: &[Slot]) -> Result<(), Refusal>
    ensures { CheckSchedule load slots.now result }
{
    check_load(load)?;
    if slots.len() != steps_in(load) as usize {
        return Err(Refusal::SlotCount);
    }
    let mut seen = Seen::default();
    for slot in slots {
        check_at(&load, &mut seen, slot)?;
    }
    Ok(())
}

// Gives n, or 256 where that is less: of an array, no more slots than it has places count.
pub fn at_most_places(n: usize) -> usize
    ensures { AtMostPlaces n result }
{
    n.min(SLOT_PLACES)
}

// Checks the first n slots of an array, at most 256, as check_schedule does a lent slice.
// An array and a count: CheckArray takes both, as a caller holds them so (D52).
pub fn check_array(load: Load, slots: [Slot; SLOT_PLACES], n: usize) -> Result<(), Refusal>
    ensures { CheckArray load slots n result }
{
    check_schedule(load, &slots[..at_most_places(n)])
}
