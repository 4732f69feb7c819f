// What is printed for a load file, as bytes: the program's lines, or those of the program that says
// whom to blame, which differ in their row lines alone. What is wrong with the file is printed, so
// the only refusal is that the lent output is too short (9).
#![tactic(auto)]

mod gather;
mod line;
mod word;

ghost use Rattle.std.specs.Prelude.{◌≡◌, Ok};
ghost use Rattle.refusals.specs.Given.{WritesOut};
ghost use Rattle.lines.specs.Lines.{printed_by};
ghost use Rattle.lines.specs.Calls.{
  text_holding,
  TextOf,
  BlamedTextOf,
  PrintLines,
  PrintBlames,
};

use refusals::Refusal;
use words::overwrite;

// How many places a text has: a first line of at most 53 bytes, 24 row lines of at most 71, and 192
// slot lines of at most 38.
pub const TEXT_PLACES: usize = 9053;

// What is printed: so many bytes, and 0 in the places past them.
#[derive(Clone, Copy)]
pub struct Text {
    pub length: usize,
    pub bytes: [u8; TEXT_PLACES],
}

// Gives all that is printed for a load file, with or without whom each row blames.
fn text_by(bytes: &[u8], blamed: bool) -> Text
    ensures { result ≡ text_holding (printed_by blamed bytes.now) }
{
    let mut text = Text {
        length: 0,
        bytes: [0; TEXT_PLACES],
    };
    text.put_printed(bytes, blamed);
    text
}

// Writes what is printed for a load file at the output's front. Refuses an output that is shorter
// (9), and then alters no byte. Bytes past what is printed stay.
fn print_by(bytes: &[u8], blamed: bool, out: &mut [u8]) -> Result<usize, Refusal>
    ensures { WritesOut (Ok tt) (printed_by blamed bytes.now) out.old result out.new }
{
    let text = text_by(bytes, blamed);
    if out.len() < text.length {
        return Err(Refusal::OutputShort);
    }
    overwrite(out, 0, &text.bytes[..text.length]);
    Ok(text.length)
}

// Gives all that the program prints for a load file. It refuses nothing, as there is room for every
// text.
// docs/BELIEVE.md names it and the three calls below, so all stay: each is one line (D85).
pub fn text_of(bytes: &[u8]) -> Text
    ensures { TextOf bytes.now result }
{
    text_by(bytes, false)
}

// Gives all that is printed for a load file by the program that says whom to blame. It refuses
// nothing either.
pub fn blamed_text_of(bytes: &[u8]) -> Text
    ensures { BlamedTextOf bytes.now result }
{
    text_by(bytes, true)
}

// Writes what the program prints for a load file at the output's front. Refuses an output that is
// shorter (9), and then alters no byte. Bytes past what is printed stay.
pub fn print_lines(bytes: &[u8], out: &mut [u8]) -> Result<usize, Refusal>
    ensures { PrintLines bytes.now out.old result out.new }
{
    print_by(bytes, false, out)
}

// Writes in the same way, with the same refusal (9), what is printed by the program that says whom
// to blame.
pub fn print_blames(bytes: &[u8], out: &mut [u8]) -> Result<usize, Refusal>
    ensures { PrintBlames bytes.now out.old result out.new }
{
    print_by(bytes, true, out)
}
