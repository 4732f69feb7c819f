// The questions, by pieces: of a size that is known, or of a count that is read before them. Where
// a question is cut short, or holds too many things, there is none.
// The other program of trials has the same file (D77).
ghost use Rattle.std.specs.Prelude.{◌≡◌, ◌<◌, ◌≤◌, length, IfSome};

use std::io::Read;
use words::number16_at;

// Gives the first n bytes; all, where there are fewer.
pub fn front(bytes: &[u8], n: usize) -> &[u8] {
    bytes.get(..n).unwrap_or(bytes)
}

// Gives a buffer, each byte of it the same. The contract says only how many they are, so that no
// proof goes through them one by one.
pub fn filled<const SIZE: usize>(byte: u8) -> [u8; SIZE]
    ensures { SIZE ≡ length result }
{
    [byte; SIZE]
}

// Fills a buffer. None where the input ends before, or a read fails.
pub fn read_whole(input: &mut impl Read, buffer: &mut [u8]) -> Option<()> {
    input.read_exact(buffer).ok()
}

// Reads a count of two bytes.
pub fn read_count(input: &mut impl Read) -> Option<usize>
    ensures { IfSome result (λ count. count < 65536) }
{
    let mut bytes = [0u8; 2];
    read_whole(input, &mut bytes)?;
    Some(number16_at(&bytes, 0) as usize)
}

// Reads a count and then so many things of a size, to a buffer's front, and gives the count. None
// where the buffer is shorter, too.
pub fn read_things(input: &mut impl Read, buffer: &mut [u8], size: usize) -> Option<usize>
    requires { size ≤ 6 }
    ensures { IfSome result (λ count. count < 65536) }
{
    let count = read_count(input)?;
    read_whole(input, buffer.get_mut(..size * count)?)?;
    Some(count)
}
