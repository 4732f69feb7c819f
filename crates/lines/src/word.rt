// A text that is gathered piece by piece: each call puts bytes behind those that the text has. No
// call refuses: a byte that has no place is let go.
ghost use Rattle.std.specs.Prelude.{◌∷◌, ◌≤◌, take};
ghost use Rattle.words.specs.Decimal.{decimal, signed_decimal};
ghost use Rattle.words.specs.Calls.{word_places};
ghost use Rattle.lines.specs.Lines.{yes_or_no};
ghost use Rattle.lines.specs.inner.Puts.{Puts};

use crate::{TEXT_PLACES, Text};
use words::{Word, decimal_of, overwrite, signed_of};

impl Text {
    // Puts bytes.
    pub(crate) fn put(&mut self, bytes: &[u8])
        ensures { Puts self.old bytes.now self.new }
    {
        overwrite(&mut self.bytes, self.length, bytes);
        self.length = self.length.saturating_add(bytes.len()).min(TEXT_PLACES);
    }

    // Puts a space and a word.
    fn put_word(&mut self, word: Word)
        requires { word.length ≤ word_places }
        ensures { Puts self.old (32 ∷ take word.length word.bytes) self.new }
    {
        self.put(b" ");
        self.put(&word.bytes[..word.length]);
    }

    // Puts a space and a number.
    pub(crate) fn put_number(&mut self, number: u32)
        ensures { Puts self.old (32 ∷ decimal number) self.new }
    {
        self.put_word(decimal_of(number));
    }

    // Puts a space and a whole number, with its sign where it is negative.
    pub(crate) fn put_signed(&mut self, number: i32)
        ensures { Puts self.old (32 ∷ signed_decimal number) self.new }
    {
        self.put_word(signed_of(number));
    }

    // Puts a space and the verdict in a word.
    pub(crate) fn put_verdict(&mut self, verdict: bool)
        ensures { Puts self.old (32 ∷ yes_or_no verdict) self.new }
    {
        if verdict {
            self.put(b" yes");
        } else {
            self.put(b" no");
        }
    }
}
