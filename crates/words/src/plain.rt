// Plain decimal, as it is read: one to ten digits, and a 0 at their front stands alone. No call
// refuses.
ghost use Rattle.std.specs.Prelude.{ℕ, true, ◌≡◌, ◌≤◌, ◌<◌, length, take};
ghost use Rattle.std.specs.List.{prefix_len};
ghost use Rattle.words.specs.LittleEndian.{byte_at};
ghost use Rattle.words.specs.PlainDecimal.{is_digit, is_plain, value_at};
ghost use Rattle.words.specs.Calls.{DecimalAt};

use crate::{Digits, bytes_from};

// The most digits that a number has.
const MOST_DIGITS: usize = 10;

// Gives how many digits the bytes begin with; eleven where there are more than ten.
fn digit_run(bytes: &[u8]) -> usize
    ensures { result ≡ prefix_len is_digit (take 11 bytes.now) }
{
    bytes
        .iter()
        .take(MOST_DIGITS + 1)
        .take_while(|byte| byte.is_ascii_digit())
        .count()
}

// Says whether so many digits are a plain decimal.
fn is_plain(digits: &[u8]) -> bool
    ensures { result ≡ is_plain digits.now 0 (length digits.now) }
{
    match digits {
        [] => false,
        [b'0', _, ..] => false,
        _ => digits.len() <= MOST_DIGITS,
    }
}

// Gives the number that digits spell.
fn spelled(digits: &[u8]) -> u64
    requires few { length digits.now ≤ 10 }
    requires are { (d : ℕ) → d < length digits.now → is_digit (byte_at digits.now d) ≡ true }
    ensures { result ≡ value_at digits.now 0 (length digits.now) }
{
    let mut value = 0;
    for digit in digits {
        value = 10 * value + u64::from(*digit - b'0');
    }
    value
}

// The plain decimal at a place, where one stands there: how many digits it has, and the number.
pub fn decimal_at(bytes: &[u8], at: usize) -> Option<Digits>
    ensures { DecimalAt bytes.now at result }
{
    let rest = bytes_from(bytes, at);
    let digits = &rest[..digit_run(rest)];
    if !is_plain(digits) {
        return None;
    }
    Some(Digits {
        count: digits.len(),
        value: spelled(digits),
    })
}
