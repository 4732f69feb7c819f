// The questions C and D: a load, from a file (C) or in memory (D), and slots. They are answered by
// `check` and the number of what the check of the slots finds, 0 for nothing. A file that is
// refused is answered by `refused` and its number.
use crate::given::{Given, write_refused};
use crate::input::read_things;
use crate::output::{write_byte, write_number};
use crate::slots::{SLOT_SIZE, SLOTS_SIZE, slots_from};
use refusals::number_given;
use schedule::check_array;
use std::io::{Read, Result, Write};

// Reads and answers the question. Says no where it is cut short, the file too long, or the slots
// too many.
pub fn answer(given: Given, input: &mut impl Read, output: &mut impl Write) -> Result<bool> {
    let Some(given) = given else {
        return Ok(false);
    };
    let mut bytes = [0u8; SLOTS_SIZE];
    let Some(n) = read_things(input, &mut bytes, SLOT_SIZE) else {
        return Ok(false);
    };
    match given {
        Ok(load) => {
            let found = check_array(load, slots_from(&bytes), n);
            write_number(output, b"check ", number_given(found))?;
        }
        Err(refusal) => write_refused(output, refusal)?,
    }
    write_byte(output, b'\n')?;
    Ok(true)
}
