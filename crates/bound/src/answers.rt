// Bound, margins, verdict and blames of a load together, from one check and one look at its places.
ghost use Rattle.std.specs.Prelude.{◌≡◌};
ghost use Rattle.load.specs.View.{view_of};
ghost use Rattle.load.specs.Acceptable.{Acceptable};
ghost use Rattle.load.specs.Calls.{CheckLoad};
ghost use Rattle.rules.specs.Bound.{bound};
ghost use Rattle.rules.specs.Margins.{margins, verdict};
ghost use Rattle.rules.specs.Blame.{place_waits, blames};
ghost use Rattle.bound.specs.Calls.{AnswersOf};

use crate::Answered;
use crate::blames::{blames_by, cut_blames};
use crate::bounds::{cut_bounds, waits_below};
use crate::margins::{margins_by, none_negative};
use crate::waits::place_waits;
use load::{Load, MOST_STEPS, check_load};
use refusals::Refusal;
use rules::{LargestW, MOST_PLACES};

// Checks a load that is lent. It stands beside the look and not within it, so that what the two
// take of the stack, here a copy of the load, does not add up.
#[inline(never)]
fn check(load: &Load) -> Result<(), Refusal>
    ensures { CheckLoad load.now result }
{
    check_load(*load)
}

// Gives bound, margins, verdict and blames of an accepted load, by the largest W of each place.
// Those are found beside it, for the same reason.
#[inline(never)]
fn load_answers(load: &Load, places: &[LargestW; MOST_PLACES]) -> Answered
    requires { Acceptable (view_of load.now) × (places.now ≡ place_waits (view_of load.now)) }
    ensures { result ≡ record {
      bound = bound (view_of load.now);
      margins = margins (view_of load.now);
      verdict = verdict (view_of load.now);
      blames = blames (view_of load.now);
    } }
{
    let bounds = cut_bounds(load, &waits_below(places));
    let margins = margins_by(load, &bounds);
    let blames = blames_by(load, &cut_blames(places));
    Answered {
        bound: bounds[MOST_STEPS - 1],
        margins,
        verdict: none_negative(&margins, load.rows as usize),
        blames,
    }
}

// Gives bound, margins, verdict and blames of a load, or what the load is refused for.
pub fn answers(load: &Load) -> Result<Answered, Refusal>
    ensures { AnswersOf load.now result }
{
    check(load)?;
    let places = place_waits(load);
    Ok(load_answers(load, &places))
}
