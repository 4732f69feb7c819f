// The turns of the rows with one step number: as many as there are classes, the highest first.
ghost use Rattle.std.specs.Prelude.{◌≡◌, cond, ◌-◌, min, ◌<◌, ltb};
ghost use Rattle.load.specs.Load.{most_rows, most_class};
ghost use Rattle.plan.specs.Choices.{turn_in};
ghost use Rattle.plan.specs.inner.Turns.{FirstTurn};

use load::{MOST_CLASS, MOST_ROWS};

// How many turns there are.
pub const TURNS: u8 = 4;

// Gives how many classes are higher than one; a class above 3 is as 3.
fn turn_of(class: u8) -> u8
    ensures { result ≡ most_class - class }
{
    MOST_CLASS.saturating_sub(class)
}

// Gives the turn of row i.
pub fn turn_at(classes: &[u8; MOST_ROWS], i: usize) -> u8
    requires { i < most_rows }
    ensures { result ≡ turn_in classes.now i }
{
    turn_of(classes[i])
}

// Gives the turn of the highest class, before which no row has one. All places are asked, without
// an early exit, which lets several be asked at once.
pub fn first_turn(classes: &[u8; MOST_ROWS]) -> u8
    ensures { FirstTurn classes.now result }
{
    let mut highest: u8 = 0;
    for class in classes {
        highest = highest.max(*class);
    }
    turn_of(highest)
}

// Gives the next turn to be tried: the lower of the one so far and a row's, where that is still to
// come.
pub fn next_turn(turn: u8, here: u8, next: u8) -> u8
    ensures { result ≡ cond (ltb turn here) (min here next) next }
{
    if here <= turn {
        return next;
    }
    here.min(next)
}
