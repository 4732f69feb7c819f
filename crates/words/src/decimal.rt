// Whole numbers in plain decimal, with no leading zero. No call refuses.
ghost use Rattle.std.specs.Prelude.{◌≡◌, ◌+◌, ◌≤◌, length};
ghost use Rattle.std.proofs.lemmas.List.Edits.{sets};
ghost use Rattle.words.specs.Decimal.{decimal};
ghost use Rattle.words.specs.Calls.{DecimalOf, SignedOf};

use crate::{WORD_PLACES, Word};

// Gives how many digits a number has in decimal.
fn digit_count(number: u32) -> usize
    ensures { result ≡ length (decimal number) }
{
    number.checked_ilog10().unwrap_or(0) as usize + 1
}

// Gives the word that holds the first bytes up to a place, and a number's digits from there on. The
// digits are written from the last to the first.
// By hand: Display writes to an output, and DecimalOf and SignedOf give a word by value (D44).
fn with_digits(bytes: [u8; WORD_PLACES], at: usize, number: u32) -> Word
    requires { at ≤ 1 }
    ensures { result ≡ record {
      length = at + length (decimal number);
      bytes = sets bytes at (decimal number);
    } }
{
    let length = at + digit_count(number);
    let mut written = bytes;
    let mut rest = number;
    for place in (at..length).rev() {
        written[place] = b'0' + (rest % 10) as u8;
        rest /= 10;
    }
    Word {
        length,
        bytes: written,
    }
}

// Gives a number in decimal.
pub fn decimal_of(number: u32) -> Word
    ensures { DecimalOf number result }
{
    with_digits([0; WORD_PLACES], 0, number)
}

// Gives a whole number in decimal, with a minus sign before it where it is negative.
pub fn signed_of(number: i32) -> Word
    ensures { SignedOf number result }
{
    let digits = number.unsigned_abs();
    if number < 0 {
        let mut bytes = [0; WORD_PLACES];
        bytes[0] = b'-';
        return with_digits(bytes, 1, digits);
    }
    decimal_of(digits)
}
