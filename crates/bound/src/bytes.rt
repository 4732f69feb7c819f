// The bytes of all margins. No call refuses.
ghost use Rattle.bound.specs.Calls.{MarginBytes};

use load::MOST_ROWS;
use words::{bytes32, complement32, overwrite};

// Gives the bytes of all margins: 4 to a row, little-endian two's complement.
pub fn margin_bytes(margins: [i32; MOST_ROWS]) -> [u8; 4 * MOST_ROWS]
    ensures { MarginBytes margins result }
{
    let mut bytes = [0u8; 4 * MOST_ROWS];
    for (i, margin) in margins.iter().enumerate() {
        let four = bytes32(complement32(*margin));
        overwrite(&mut bytes, 4 * i, &four);
    }
    bytes
}
