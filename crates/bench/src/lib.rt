// The bench, by value: a fresh one, one move of it, and the run from fresh to Done. A move is
// refused by the load's own numbers, by a state that does not have the load's shape (10), and with
// the clock full (11); a run by the load's own numbers alone, and one that is written by its file's
// and by an output that is too short (9).
#![tactic(auto)]

mod boards;
mod files;
mod lamps;
mod moves;
mod runs;
mod shape;
mod state;

pub use files::write_run;
use load::MOST_ROWS;
pub use moves::next_move;
use rules::{Outcome, SLOT_PLACES, Slot};
pub use runs::run;
pub use state::fresh;

// A bench state: its clock, and per row the steps finished, the moment the last of them ended, and
// the start of an open window's first step. Places for rows that the load does not have are 0.
// Three arrays, and 0 for no opening: NextMove takes every such bench, and hands one back.
#[derive(Clone, Copy)]
pub struct Bench {
    pub clock: u32,
    pub finished: [u8; MOST_ROWS],
    pub end: [u32; MOST_ROWS],
    pub opening: [u32; MOST_ROWS],
}

// What a move hands back: the next bench, the answer, the lamp word, and the count of its ones.
#[derive(Clone, Copy)]
pub struct Moved {
    pub bench: Bench,
    pub outcome: Outcome,
    pub lamps: u32,
    pub count: u32,
}

// What a run hands back: how many slots there are, and the slots in order. Places past the last
// slot are zero.
// An array and a count, as the crate has no heap: check_array takes the two as they are (D52).
#[derive(Clone, Copy)]
pub struct Ran {
    pub count: usize,
    pub slots: [Slot; SLOT_PLACES],
}

// What a start gives: its slot, and the moment at which the step ends.
#[derive(Clone, Copy)]
pub(crate) struct Started {
    pub slot: Slot,
    pub end: u32,
}
