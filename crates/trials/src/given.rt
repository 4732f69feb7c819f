// The load that a question is about. It comes as a load file (its length in 2 bytes, at most 4,096,
// and its bytes), which can be refused, or as a load in memory. There is none where the question is
// cut short, or the file too long.
// The other program of trials has the same file (D77).
use crate::input::{filled, front, read_things, read_whole};
use crate::memory::{LOAD_SIZE, load_from};
use crate::output::write_number;
use load::Load;
use load_file::read_load;
use refusals::{Refusal, number_of};
use std::io::{self, Read, Write};

// A load, or what its reading refuses.
pub type Given = Option<Result<Load, Refusal>>;

// The most bytes of a load file that is asked about.
pub const MOST_ASKED: usize = 4096;

// Reads a load from its file.
pub fn from_file(input: &mut impl Read) -> Given {
    let mut file = filled::<MOST_ASKED>(0);
    let length = read_things(input, &mut file, 1)?;
    Some(read_load(front(&file, length)))
}

// Takes a load as it is in memory: nothing is looked for, so nothing is refused.
pub fn from_memory(input: &mut impl Read) -> Option<Load> {
    let mut bytes = [0u8; LOAD_SIZE];
    read_whole(input, &mut bytes)?;
    Some(load_from(&bytes))
}

// Writes `refused` and the number.
pub fn write_refused(output: &mut impl Write, refusal: Refusal) -> io::Result<()> {
    write_number(output, b"refused ", number_of(refusal))
}
