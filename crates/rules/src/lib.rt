// The kinds of value that the rules and the calls share: the largest W of a place, whom a row's
// bound is blamed on, a slot of a schedule, and what a move answers. No code.
#![tactic(auto)]

use load::MOST_STEPS;
use refusals::Refusal;

// Each place lies between two steps of a row.
pub const MOST_PLACES: usize = MOST_STEPS - 1;

// An array of slots has 256 places.
pub const SLOT_PLACES: usize = 256;

// The largest W of a place, and its row, counted from 1; 0 and 0 where nothing is left of a wait.
// Zeros and no Option: the relation PlaceWaitsOf gives these numbers.
#[derive(Clone, Copy)]
pub struct LargestW {
    pub left: u16,
    pub row: u8,
}

// The place and the row with the largest W, both counted from 1; 0 and 0 where every W is 0.
// Zeros and no Option: the relations BlamesOf and AnswersOf give these numbers.
#[derive(Clone, Copy)]
pub struct Blame {
    pub place: u8,
    pub row: u8,
}

// A slot: a row and a step of it, both counted from 1, and the moment at which the step starts.
#[derive(Clone, Copy)]
pub struct Slot {
    pub row: u8,
    pub step: u8,
    pub start: u32,
}

// What a move answers.
// Refused is a case, and no Err: by NextMove a refused move hands the bench back too (D25).
#[derive(Clone, Copy)]
pub enum Outcome {
    Start(Slot),
    Idle,
    Done,
    Refused(Refusal),
}
