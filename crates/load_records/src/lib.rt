// The records of a load file: those of a row, and writing a load as its file, in version 1 and in
// version 2. A load to be written is refused with its own numbers, with 22 where version 1 does not
// carry it, or with 9.
#![tactic(auto)]

mod records;
mod rows;
mod writing;

pub use records::{
    END_MARK, END_SIZE, HEADER_MARK, HEADER_SIZE, MOST_FILE_BYTES, MOST_ROW_BYTES, ROW_MARK,
    ROW_SIZE_1, STEP_MARK, STEP_SIZE, VERSION_1, VERSION_2, WINDOW_MARK, WINDOW_SIZE, row_size,
};
pub use rows::row_records;
pub use writing::{version_1_size, version_2_size, write_version_1, write_version_2};

// The records of a row: so many bytes, and 0 in the places behind them.
#[derive(Clone, Copy)]
pub struct RowRecords {
    pub length: usize,
    pub bytes: [u8; MOST_ROW_BYTES],
}
