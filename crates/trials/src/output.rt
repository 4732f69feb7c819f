// What is answered, by pieces: texts, and numbers as decimal digits.
// The other program of trials has the same file (D77).
use std::io::{Result, Write};

// Writes a text.
pub fn write_text(output: &mut impl Write, text: &[u8]) -> Result<()> {
    output.write_all(text)
}

// Writes one byte.
pub fn write_byte(output: &mut impl Write, byte: u8) -> Result<()> {
    write_text(output, &[byte])
}

// Writes a text and then a number.
pub fn write_number(output: &mut impl Write, text: &[u8], number: u32) -> Result<()> {
    write_text(output, text)?;
    write!(output, "{number}")
}
