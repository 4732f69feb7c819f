// What a writing call gives: its number, and the bytes that it left as hexadecimal digits.
use crate::output::{write_byte, write_number};
use refusals::{Refusal, number_given};
use std::io::{self, Write};

// Writes bytes, two hexadecimal digits each.
pub fn write_hex(output: &mut impl Write, bytes: &[u8]) -> io::Result<()> {
    for byte in bytes {
        write!(output, "{byte:02x}")?;
    }
    Ok(())
}

// Writes a line: a text, the number of what a writing call found and, where that is 0, a space and
// the bytes that it left.
pub fn write_written(
    output: &mut impl Write,
    text: &[u8],
    found: Result<(), Refusal>,
    bytes: &[u8],
) -> io::Result<()> {
    let number = number_given(found);
    write_number(output, text, number)?;
    if number == 0 {
        write_byte(output, b' ')?;
        write_hex(output, bytes)?;
    }
    write_byte(output, b'\n')
}
