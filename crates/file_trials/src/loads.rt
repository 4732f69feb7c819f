// The questions W and w, V and v: a load in memory, and for w and v a room before it. They are
// answered by `load`, or by `load2` where the load is written as version 2 (V, v), and the number
// of what its writing finds; where that is 0, in hexadecimal digits by the load file (W, V) or by
// all the room (w, v).
use crate::given::from_memory;
use crate::input::{filled, front};
use crate::output::write_text;
use crate::rooms::{BEFORE, MOST_ROOM, Room};
use crate::written::write_written;
use load::Load;
use load_records::{version_1_size, version_2_size, write_version_1, write_version_2};
use refusals::Refusal;
use std::io::{self, Read, Write};

// The version that a load is written as.
#[derive(Clone, Copy)]
pub enum Version {
    First,
    Second,
}

impl Version {
    // Writes a load as its file of this version, and gives what is found.
    fn write(self, load: Load, room: &mut [u8]) -> Result<(), Refusal> {
        match self {
            Version::First => write_version_1(load, room),
            Version::Second => write_version_2(load, room),
        }
    }

    // Gives how many bytes a load's file of this version has.
    fn size(self, load: Load) -> usize {
        match self {
            Version::First => version_1_size(load),
            Version::Second => version_2_size(load),
        }
    }

    // Gives the word that an answer begins with.
    fn word(self) -> &'static [u8] {
        match self {
            Version::First => b"load",
            Version::Second => b"load2",
        }
    }
}

// Reads and answers the question. Says no where it is cut short, or the room too large.
pub fn answer(
    version: Version,
    room: Option<Room>,
    input: &mut impl Read,
    output: &mut impl Write,
) -> io::Result<bool> {
    let (Some(room), Some(load)) = (room, from_memory(input)) else {
        return Ok(false);
    };
    let mut bytes = filled::<MOST_ROOM>(BEFORE);
    let Some(lent) = bytes.get_mut(..room.size_or(MOST_ROOM)) else {
        return Ok(false);
    };
    let found = version.write(load, lent);
    let n = room.size_or(version.size(load));
    write_text(output, version.word())?;
    write_written(output, b" ", found, front(&bytes, n))?;
    Ok(true)
}
