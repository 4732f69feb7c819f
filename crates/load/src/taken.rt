// What earlier rows hold already: an identifier and a box stand in one row of a load only.
ghost use Rattle.std.specs.Prelude.{◌≡◌, take};
ghost use Rattle.std.specs.List.{list_any};
ghost use Rattle.load.specs.Calls.{IdentifierTaken, BoxTaken};

use crate::ranges::MOST_ROWS;
use crate::{BoxNumber, Identifier};

// Says whether one of the first n is the one that is sought.
fn is_held<T: PartialEq>(held: &[T], n: usize, sought: &T) -> bool
    ensures { result ≡ list_any (λ x. T.eq x sought.now) (take n held.now) }
{
    held.iter().take(n).any(|x| x == sought)
}

// Says whether one of the first n identifiers, of at most 24, is that identifier.
// docs/BELIEVE.md names it and box_taken, and their relations take an array and a count.
pub fn identifier_taken(
    identifiers: [Identifier; MOST_ROWS],
    n: usize,
    identifier: Identifier,
) -> bool
    ensures { IdentifierTaken identifiers n identifier result }
{
    is_held(&identifiers, n, &identifier)
}

// Says whether one of the first n box numbers, of at most 24, is that box number.
pub fn box_taken(boxes: [BoxNumber; MOST_ROWS], n: usize, box_number: BoxNumber) -> bool
    ensures { BoxTaken boxes n box_number result }
{
    is_held(&boxes, n, &box_number)
}
