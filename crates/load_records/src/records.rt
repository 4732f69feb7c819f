// The records of a load file: the mark that opens each, how long it is in a version, and its bytes.
// No call refuses.
ghost use Rattle.std.specs.Prelude.{◌≡◌, ℕ, List};
ghost use Rattle.load_records.specs.Records.{
  newest,
  header_record,
  row_record,
  step_record,
  window_record,
  end_record,
};
ghost use Rattle.load_records.specs.Calls.{RowSize};

use load::{MOST_ROWS, MOST_STEPS, MOST_WINDOWS, Row, Step, Window};

// The marks.
pub const HEADER_MARK: [u8; 2] = [0x4C, 0x44];

pub const ROW_MARK: [u8; 2] = [0x52, 0x57];

pub const STEP_MARK: [u8; 2] = [0x53, 0x54];

pub const WINDOW_MARK: [u8; 2] = [0x57, 0x4E];

pub const END_MARK: [u8; 2] = [0x45, 0x4E];

// How many bytes a record has, its mark counted.
pub const HEADER_SIZE: usize = 4;

// Version 2 has the class and the head behind what version 1 has.
pub const ROW_SIZE_1: usize = 20;

pub const ROW_SIZE_2: usize = 22;

pub const STEP_SIZE: usize = 6;

pub const WINDOW_SIZE: usize = 6;

pub const END_SIZE: usize = 4;

// The most bytes that a row has with its steps and its windows.
pub const MOST_ROW_BYTES: usize = ROW_SIZE_2 + MOST_STEPS * STEP_SIZE + MOST_WINDOWS * WINDOW_SIZE;

// The most bytes that a load file has.
pub const MOST_FILE_BYTES: usize = HEADER_SIZE + MOST_ROWS * MOST_ROW_BYTES + END_SIZE;

// The versions that files have.
pub const VERSION_1: u8 = 1;

pub const VERSION_2: u8 = 2;

// Gives how many bytes a row's own record has in version 2, and in any other.
pub fn row_size(version: u8) -> usize
    ensures { RowSize version result }
{
    if version == VERSION_2 {
        ROW_SIZE_2
    } else {
        ROW_SIZE_1
    }
}

// Gives the header of a file of a version, with so many rows.
pub fn header_record(version: u8, rows: u8) -> [u8; HEADER_SIZE]
    ensures { result ≡ header_record version rows }
{
    [HEADER_MARK[0], HEADER_MARK[1], version, rows]
}

// Gives a row's own record as version 2 has it. Version 1 has the front of it.
pub fn row_record(row: Row) -> [u8; ROW_SIZE_2]
    ensures { result ≡ row_record newest row }
{
    let identifier = words::bytes32(row.identifier.0);
    let number = words::bytes32(row.box_number.0);
    let phase = words::bytes32(row.phase);
    let deadline = words::bytes32(row.deadline);
    [
        ROW_MARK[0],
        ROW_MARK[1],
        identifier[0],
        identifier[1],
        identifier[2],
        identifier[3],
        number[0],
        number[1],
        number[2],
        number[3],
        phase[0],
        phase[1],
        phase[2],
        phase[3],
        deadline[0],
        deadline[1],
        deadline[2],
        deadline[3],
        row.steps,
        row.windows,
        row.class,
        row.head,
    ]
}

// A part of a row that has a record of its own, of so many bytes.
pub trait Part<const SIZE: usize>: Copy {
    ghost bytes: { Self → List ℕ };

    // Gives its record.
    fn record(self) -> [u8; SIZE]
        ensures { result ≡ bytes self };
}

impl Part<STEP_SIZE> for Step {
    ghost bytes = { step_record };

    // The cost and the wait.
    fn record(self) -> [u8; STEP_SIZE] {
        let cost = words::bytes16(self.cost);
        let wait = words::bytes16(self.wait);
        [
            STEP_MARK[0],
            STEP_MARK[1],
            cost[0],
            cost[1],
            wait[0],
            wait[1],
        ]
    }
}

impl Part<WINDOW_SIZE> for Window {
    ghost bytes = { window_record };

    // The two steps and the limit.
    fn record(self) -> [u8; WINDOW_SIZE] {
        let limit = words::bytes16(self.limit);
        [
            WINDOW_MARK[0],
            WINDOW_MARK[1],
            self.first,
            self.last,
            limit[0],
            limit[1],
        ]
    }
}

// Gives the end record of a load of so many steps.
pub fn end_record(steps: u16) -> [u8; END_SIZE]
    ensures { result ≡ end_record steps }
{
    let count = words::bytes16(steps);
    [END_MARK[0], END_MARK[1], count[0], count[1]]
}
