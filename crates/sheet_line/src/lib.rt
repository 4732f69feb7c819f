// One line of a route sheet, both ways: what a line says, and the text of a step's line. No call
// refuses.
#![tactic(auto)]

mod reading;
mod signs;
mod writing;

pub use reading::line_at;
pub use writing::line_of;

// The most bytes that the line of a row in memory has.
pub const MOST_LINE_BYTES: usize = 63;

// What stands in a line's last field.
#[derive(Clone, Copy)]
pub enum Mark {
    Nothing,
    Dash,
    Limit(u64),
}

// What a line says. Its numbers have up to ten digits, more than a load's fields hold.
#[derive(Clone, Copy)]
pub struct Line {
    pub identifier: u64,
    pub box_number: u64,
    pub phase: u64,
    pub deadline: u64,
    pub cost: u64,
    pub wait: u64,
    pub mark: Mark,
}

// A line as it is read: what it says, and where the next line stands.
#[derive(Clone, Copy)]
pub struct LineRead {
    pub line: Line,
    pub next: usize,
}

// The text of a line: so many bytes, and 0 in the places behind them.
#[derive(Clone, Copy)]
pub struct LineText {
    pub length: usize,
    pub bytes: [u8; MOST_LINE_BYTES],
}
