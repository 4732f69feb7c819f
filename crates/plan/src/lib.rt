// What is looked up of the rows of a load, and the search for the first candidate that passes the
// stacking plan. Nothing is refused: each call says what it makes of numbers that no load has.
#![tactic(auto)]

mod boards;
mod choices;
mod lookups;
mod numbers;
mod orders;
mod passing;
mod searching;
mod soonest;
mod staying;
mod sweeping;
mod turns;
mod walking;

pub use boards::{look_at, put_look};
pub use choices::{chosen_row, next_start, opening_after};
use load::MOST_ROWS;
pub use lookups::{look_of, open_window};

// What is looked up of a row: steps finished and steps in all, the opening, its next step's cost
// and the moment from which that may start; whether a window is open, what is left of it, and when
// it is due; and, once the next step is over, the wait after it, whether a window is open then,
// what is left of that, and its limit.
// Marks beside their numbers and no Options: the relation LookOf says each number, open or not.
#[derive(Clone, Copy, Default)]
pub struct Look {
    pub finished: u8,
    pub steps: u8,
    pub opening: u32,
    pub cost: u16,
    pub release: u32,
    pub opened: bool,
    pub left: u32,
    pub due: u32,
    pub wait: u16,
    pub stays: bool,
    pub rest: u32,
    pub limit: u16,
}

// The board: what is looked up of every row of a load, an array a number, one place a row, so that
// a loop over the rows reads places side by side.
#[derive(Clone, Copy, Default)]
pub struct Board {
    pub finished: [u8; MOST_ROWS],
    pub steps: [u8; MOST_ROWS],
    pub opening: [u32; MOST_ROWS],
    pub cost: [u16; MOST_ROWS],
    pub release: [u32; MOST_ROWS],
    pub opened: [bool; MOST_ROWS],
    pub left: [u32; MOST_ROWS],
    pub due: [u32; MOST_ROWS],
    pub wait: [u16; MOST_ROWS],
    pub stays: [bool; MOST_ROWS],
    pub rest: [u32; MOST_ROWS],
    pub limit: [u16; MOST_ROWS],
}

// The row whose next step starts, and the moment at which it does.
#[derive(Clone, Copy)]
pub struct Chosen {
    pub row: usize,
    pub moment: u32,
}

// A step after which its row has an open window: whether it has one already, when the step starts,
// what it costs, the wait after it, what is left of the window then, its limit, and when it is due.
#[derive(Clone, Copy)]
pub(crate) struct Stay {
    pub opened: bool,
    pub clock: u32,
    pub cost: u16,
    pub wait: u16,
    pub rest: u32,
    pub limit: u16,
    pub own: u32,
}

// The rows with an open window, in the order of the stack: the first `count` places count.
// An array of row numbers and a count: the crate has no heap, and the board is only lent.
#[derive(Clone, Copy)]
pub(crate) struct Order {
    pub row: [u8; MOST_ROWS],
    pub count: usize,
}

// What a turn of the sweep has come to: the row that starts the soonest of those asked so far, the
// moment at which it does, and the next turn.
#[derive(Clone, Copy)]
pub(crate) struct Swept {
    pub row: usize,
    pub moment: u32,
    pub next: u8,
}

// What the plan has come to: the moment at which the windows gone over so far are finished.
#[derive(Clone, Copy)]
pub(crate) struct Plan {
    pub time: u64,
}

// What a walk over the open rows has come to: the place behind those that it went over, the moment
// at which they are finished, and the sum of what was left of them.
#[derive(Clone, Copy)]
pub(crate) struct Walked {
    pub place: usize,
    pub time: u64,
    pub work: u64,
}
