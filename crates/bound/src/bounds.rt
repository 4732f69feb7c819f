// The bounds of an accepted load that is cut at each number of steps. A row's bound depends on the
// row only by its number of steps, so eight bounds serve all rows; cut at eight the load is whole.
ghost use Rattle.std.specs.Prelude.{◌≡◌};
ghost use Rattle.counting.specs.Lists.{list_to};
ghost use Rattle.load.specs.Load.{most_steps};
ghost use Rattle.load.specs.View.{view_of};
ghost use Rattle.load.specs.Acceptable.{Acceptable};
ghost use Rattle.rules.specs.Blame.{place_waits};
ghost use Rattle.bound.specs.inner.CutTerms.{waits_below, bound_at};

use crate::cut::{kept_ticks, largest_phase};
use load::{Load, MOST_STEPS};
use rules::{LargestW, MOST_PLACES};

// Gives for each place the sum of the largest W's of the places below it.
pub fn waits_below(places: &[LargestW; MOST_PLACES]) -> [u32; MOST_STEPS]
    ensures { result ≡ list_to (waits_below places.now) most_steps }
{
    let mut sums = [0u32; MOST_STEPS];
    let mut sum: u32 = 0;
    for (k, place) in places.iter().enumerate() {
        sum += place.left as u32;
        sums[k + 1] = sum;
    }
    sums
}

// Gives the bounds of the load cut at 1 to 8 steps. Cut at k + 1 it is the kept costs and embedded
// waits, the largest phase, and the largest W's of the places between the first k + 1 steps.
pub fn cut_bounds(load: &Load, waits: &[u32; MOST_STEPS]) -> [u32; MOST_STEPS]
    requires { Acceptable (view_of load.now)
        × (waits.now ≡ list_to (waits_below (place_waits (view_of load.now))) most_steps) }
    ensures { result ≡ list_to (bound_at (view_of load.now)) most_steps }
{
    let phase = largest_phase(load);
    let mut bounds = [0u32; MOST_STEPS];
    for k in 0..MOST_STEPS {
        bounds[k] = kept_ticks(load, k + 1) + phase + waits[k];
    }
    bounds
}
