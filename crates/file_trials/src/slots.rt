// The slots of a question: how many (2 bytes), at most 256, and six bytes for each.
use rules::Slot;
use schedule::SLOT_PLACES;
use words::{byte_at, number32_at};

// A slot is its row (1 byte), its step (1) and its start (4).
pub const SLOT_SIZE: usize = 6;

const NO_SLOT: Slot = Slot {
    row: 0,
    step: 0,
    start: 0,
};

// The bytes of as many slots as an array has places.
pub const SLOTS_SIZE: usize = 1536;

// Gives the slots that the bytes spell; those behind the last that was read are zero, as its bytes.
pub fn slots_from(bytes: &[u8; SLOTS_SIZE]) -> [Slot; SLOT_PLACES] {
    let mut slots = [NO_SLOT; SLOT_PLACES];
    for (i, slot) in slots.iter_mut().enumerate() {
        let at = SLOT_SIZE * i;
        *slot = Slot {
            row: byte_at(bytes, at),
            step: byte_at(bytes, at + 1),
            start: number32_at(bytes, at + 2),
        };
    }
    slots
}
