// What a line is made of: how many numbers it has with a comma behind them, and its signs that are
// no digits.
pub const NUMBERS: usize = 6;

pub const COMMA: u8 = b',';

pub const DASH: u8 = b'-';

pub const RETURN: u8 = b'\r';

pub const FEED: u8 = b'\n';
