// The lamp word.
ghost use Rattle.std.specs.Prelude.{◌≡◌, ◌≤◌};
ghost use Rattle.counting.specs.Lists.{is_marked};
ghost use Rattle.words.specs.LampWord.{word_of};
ghost use Rattle.load.specs.Load.{most_rows};

use plan::Board;

// Gives the word with bit i set where row i has an open window, for the first rows.
pub fn lamp_word(board: &Board, rows: usize) -> u32
    requires { rows ≤ most_rows }
    ensures { result ≡ word_of (is_marked board.now.opened) rows }
{
    let mut word: u32 = 0;
    let mut place: u32 = 1;
    for opened in &board.opened[..rows] {
        if *opened {
            word += place;
        }
        place *= 2;
    }
    word
}
