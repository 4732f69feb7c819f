// Numbers, each behind the one byte that sets it apart.
use crate::output::write_byte;
use std::io::{Result, Write};

// Writes one byte and then a number.
pub fn write_marked(output: &mut impl Write, mark: u8, number: u32) -> Result<()> {
    write_byte(output, mark)?;
    write!(output, "{number}")
}

// Writes a space and then a whole number, with its sign where it is negative.
pub fn write_signed(output: &mut impl Write, number: i32) -> Result<()> {
    write!(output, " {number}")
}
