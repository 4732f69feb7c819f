// A load held in memory, by value. Identifiers and box numbers come from separate registers, so
// each has a type of its own, and a row cannot be built with the two exchanged.
#![tactic(auto)]

mod chains;
mod check;
mod faults;
mod parts;
mod plain;
mod ranges;
mod taken;
mod windows;
mod zeros;

pub use chains::chain_between;
pub use check::{check_load, check_parts};
pub use faults::{check_fields, check_step, check_window};
pub use parts::{row_at, step_at, steps_in, window_at, zero_load, zero_row};
pub use plain::check_plain;
pub use ranges::{
    LARGEST_COST, LAST_MOMENT, MOST_CLASS, MOST_ROWS, MOST_STEPS, MOST_WINDOWS, ONLY_HEAD,
};
pub use taken::{box_taken, identifier_taken};
pub use windows::embedded_at;

// A logger's identifier, 1 to 4,294,967,295; the last is the factory's, and no row may have it.
#[derive(Clone, Copy, Debug, Default, PartialEq, Eq)]
pub struct Identifier(pub u32);

// A box's number, 1 to 4,294,967,295.
#[derive(Clone, Copy, Debug, Default, PartialEq, Eq)]
pub struct BoxNumber(pub u32);

// A step: its cost, and the wait that follows it.
#[derive(Clone, Copy, Debug, Default, PartialEq, Eq)]
pub struct Step {
    pub cost: u16,
    pub wait: u16,
}

// A window: its first and last step, counted from 1, and its limit.
#[derive(Clone, Copy, Debug, Default, PartialEq, Eq)]
pub struct Window {
    pub first: u8,
    pub last: u8,
    pub limit: u16,
}

// A row: `steps` of the places of `step` are used, and `windows` of those of `window`; the others
// are zero. Higher classes go first among equals; the head is 1 for now.
// Arrays with their counts, as the crate has no heap, and a row is handed on by value.
#[derive(Clone, Copy, Debug, Default, PartialEq, Eq)]
pub struct Row {
    pub identifier: Identifier,
    pub box_number: BoxNumber,
    pub phase: u32,
    pub deadline: u32,
    pub steps: u8,
    pub windows: u8,
    pub class: u8,
    pub head: u8,
    pub step: [Step; MOST_STEPS],
    pub window: [Window; MOST_WINDOWS],
}

// A load: `rows` of the places of `row` are used; the others are zero. The places stand first, as a
// gap before them would have them copied once more where a file is read.
// An array with its count, as the crate has no heap, and a load is handed on by value.
#[derive(Clone, Copy, Debug, PartialEq, Eq)]
pub struct Load {
    pub row: [Row; MOST_ROWS],
    pub rows: u8,
}
