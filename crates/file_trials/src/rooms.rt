// The room that a writing call is lent, each byte of it A5 before: so many that every answer fits,
// of which what is written is answered; or as many as the question says (2 bytes), answered whole.
use crate::input::read_count;
use std::io::Read;

// The bytes of the largest room for a file.
pub const MOST_ROOM: usize = 4096;

// The bytes of the largest room for a sheet.
pub const MOST_SHEET_ROOM: usize = 10240;

// What each byte is before.
pub const BEFORE: u8 = 0xA5;

// A room: the largest, or of so many bytes as the question says.
#[derive(Clone, Copy)]
pub enum Room {
    Largest,
    Said(usize),
}

impl Room {
    // Gives how many bytes the question says; n, where it says nothing.
    pub(crate) fn size_or(self, n: usize) -> usize {
        match self {
            Room::Largest => n,
            Room::Said(size) => size,
        }
    }
}

// Reads the room that a question says. None where the question is cut short.
pub fn read_room(input: &mut impl Read) -> Option<Room> {
    read_count(input).map(Room::Said)
}
