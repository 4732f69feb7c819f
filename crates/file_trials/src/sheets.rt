// The question R: a route sheet (its length in 2 bytes, at most 16,384, and its bytes). It is
// answered by `sheet` and the number of what its reading finds; where that is 0, in hexadecimal
// digits by the version 1 file of its load.
use crate::input::{filled, front, read_things};
use crate::rooms::{BEFORE, MOST_ROOM};
use crate::written::write_written;
use load_records::{version_1_size, write_version_1};
use sheet::read_sheet;
use std::io::{Read, Result, Write};

// The most bytes of a sheet that is asked about.
const MOST_ASKED: usize = 16384;

// Reads and answers the question. Says no where it is cut short, or the sheet too long.
pub fn answer(input: &mut impl Read, output: &mut impl Write) -> Result<bool> {
    let mut sheet = filled::<MOST_ASKED>(0);
    let Some(length) = read_things(input, &mut sheet, 1) else {
        return Ok(false);
    };
    match read_sheet(front(&sheet, length)) {
        Ok(load) => {
            let mut bytes = filled::<MOST_ROOM>(BEFORE);
            let found = write_version_1(load, &mut bytes);
            let written = front(&bytes, version_1_size(load));
            write_written(output, b"sheet ", found, written)?;
        }
        Err(refusal) => write_written(output, b"sheet ", Err(refusal), &[])?,
    }
    Ok(true)
}
