// The questions E and e: a load in memory, and for e a room before it. They are answered by
// `export` and the number of what the sheet's writing finds: for E, where that is 0, the sheet
// follows in hexadecimal digits; for e the length that is told, and then all the room, whatever is
// found.
use crate::given::from_memory;
use crate::input::{filled, front};
use crate::output::{write_byte, write_number};
use crate::rooms::{BEFORE, MOST_SHEET_ROOM, Room};
use crate::written::{write_hex, write_written};
use refusals::{Refusal, number_of};
use sheet::write_sheet;
use std::io::{self, Read, Write};

// Writes what was found, the length that was told, 0 where there is none, and bytes.
fn write_told(
    output: &mut impl Write,
    written: Result<usize, Refusal>,
    bytes: &[u8],
) -> io::Result<()> {
    let number = written.map_or_else(number_of, |_| 0);
    let length = written.unwrap_or(0);
    write_number(output, b"export ", number)?;
    write!(output, " {length} ")?;
    write_hex(output, bytes)?;
    write_byte(output, b'\n')
}

// Reads and answers the question. Says no where it is cut short, or the room too large.
pub fn answer(
    room: Option<Room>,
    input: &mut impl Read,
    output: &mut impl Write,
) -> io::Result<bool> {
    let (Some(room), Some(load)) = (room, from_memory(input)) else {
        return Ok(false);
    };
    let mut bytes = filled::<MOST_SHEET_ROOM>(BEFORE);
    let Some(lent) = bytes.get_mut(..room.size_or(MOST_SHEET_ROOM)) else {
        return Ok(false);
    };
    let written = write_sheet(load, lent);
    let left = front(&bytes, room.size_or(written.unwrap_or(0)));
    match room {
        Room::Largest => write_written(output, b"export ", written.map(|_| ()), left)?,
        Room::Said(_) => write_told(output, written, left)?,
    }
    Ok(true)
}
