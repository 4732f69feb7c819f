// The questions F and B: a load file (its length in 2 bytes, at most 4,096, and its bytes). They
// are answered by the lines that the program prints of it (F), or the one that says whom to blame
// (B), and then a line with a full stop alone.
use crate::given::MOST_ASKED;
use crate::input::{filled, front, read_things};
use crate::output::write_text;
use lines::TEXT_PLACES;
use refusals::Refusal;
use std::io::{self, Read, Write};

// Reads and answers the question by what a call prints of the file, in a room that is large enough.
// Says no where the question is cut short, or the file too long.
pub fn answer<F: Fn(&[u8], &mut [u8]) -> Result<usize, Refusal>>(
    print: F,
    input: &mut impl Read,
    output: &mut impl Write,
) -> io::Result<bool>
    requires { F.IsAlwaysCallable print }
{
    let mut file = filled::<MOST_ASKED>(0);
    let Some(length) = read_things(input, &mut file, 1) else {
        return Ok(false);
    };
    let mut report = [0u8; TEXT_PLACES];
    let printed = print(front(&file, length), &mut report);
    write_text(output, front(&report, printed.unwrap_or(0)))?;
    write_text(output, b".\n")?;
    Ok(true)
}
