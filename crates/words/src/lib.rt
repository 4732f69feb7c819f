// Bytes and numbers: reading at any place, writing from any place on, the little-endian bytes of a
// number, its two's complement and its decimal text. No call refuses: a byte past the end reads as
// 0, and is not written.
#![tactic(auto)]

mod decimal;
mod plain;

ghost use Rattle.std.specs.Prelude.{ℕ, ◌≡◌, ◌+◌, ◌<◌, drop, slice_index};
ghost use Rattle.words.specs.LittleEndian.{byte_at};
ghost use Rattle.words.specs.Calls.{ByteAt, NumberAt, Overwrite, LittleEndian, Complement};

pub use decimal::{decimal_of, signed_of};
pub use plain::decimal_at;

// How many places a word has: a sign and the ten digits that hold every number of 32 bits.
pub const WORD_PLACES: usize = 11;

// A number as text: so many bytes, and 0 in the places past them.
#[derive(Clone, Copy)]
pub struct Word {
    pub length: usize,
    pub bytes: [u8; WORD_PLACES],
}

// A number that was read as text: how many digits it has, and what they spell.
#[derive(Clone, Copy)]
pub struct Digits {
    pub count: usize,
    pub value: u64,
}

// The byte at a place; 0 past the end.
pub fn byte_at(bytes: &[u8], at: usize) -> u8
    ensures { ByteAt bytes.now at result }
{
    bytes.get(at).copied().unwrap_or(0)
}

// The bytes from a place on; none past the end.
fn bytes_from(bytes: &[u8], at: usize) -> &[u8]
    ensures { result.now ≡ drop at bytes.now }
{
    bytes.get(at..).unwrap_or(&[])
}

// So many bytes from a place on; 0 for each that is past the end. Most numbers are read where all
// their bytes are, and there one test is enough for all: first_chunk would ask twice, and copying
// what is there would keep the array in memory.
fn bytes_at<const SIZE: usize>(bytes: &[u8], at: usize) -> [u8; SIZE]
    ensures { (k : ℕ) → k < SIZE → slice_index result k ≡ byte_at bytes.now (at + k) }
{
    if SIZE <= bytes.len() && at <= bytes.len() - SIZE {
        let mut all = [0; SIZE];
        all.copy_from_slice(&bytes[at..at + SIZE]);
        return all;
    }
    let rest = bytes_from(bytes, at);
    let mut some = [0; SIZE];
    for (k, byte) in some.iter_mut().enumerate() {
        *byte = byte_at(rest, k);
    }
    some
}

// The number of the two bytes from a place on, the lowest first; a byte past the end counts as 0.
// docs/BELIEVE.md names it and number32_at, so both stay: each is one line over bytes_at.
pub fn number16_at(bytes: &[u8], at: usize) -> u16
    ensures { NumberAt 2 bytes.now at result }
{
    u16::from_le_bytes(bytes_at(bytes, at))
}

// The number of the four bytes from a place on, the lowest first; a byte past the end counts as 0.
pub fn number32_at(bytes: &[u8], at: usize) -> u32
    ensures { NumberAt 4 bytes.now at result }
{
    u32::from_le_bytes(bytes_at(bytes, at))
}

// Writes the bytes over the output from a place on. Bytes that would lie past the end are not
// written; all other bytes of the output stay.
pub fn overwrite(out: &mut [u8], at: usize, bytes: &[u8])
    ensures { Overwrite out.old at bytes.now out.new }
{
    let start = at.min(out.len());
    let count = bytes.len().min(out.len() - start);
    out[start..start + count].copy_from_slice(&bytes[..count]);
}

// The two bytes of a number, the lowest first.
// docs/BELIEVE.md names it and bytes32, so both stay: each is one call of the library.
pub fn bytes16(number: u16) -> [u8; 2]
    ensures { LittleEndian 2 number result }
{
    u16::to_le_bytes(number)
}

// The four bytes of a number, the lowest first.
pub fn bytes32(number: u32) -> [u8; 4]
    ensures { LittleEndian 4 number result }
{
    u32::to_le_bytes(number)
}

// The word of 32 bits in which a whole number is written, in two's complement.
pub fn complement32(number: i32) -> u32
    ensures { Complement 32 number result }
{
    number.cast_unsigned()
}
