// Whom the rows of an accepted load blame. A row's blame depends on the row only by its number of
// steps, as its bound does, so eight blames serve all rows.
ghost use Rattle.std.specs.Prelude.{◌≡◌};
ghost use Rattle.counting.specs.Lists.{list_to};
ghost use Rattle.load.specs.Load.{most_steps};
ghost use Rattle.load.specs.View.{view_of};
ghost use Rattle.load.specs.Acceptable.{Acceptable};
ghost use Rattle.rules.specs.Blame.{blame_among, place_waits, blames};
ghost use Rattle.bound.specs.inner.CutTerms.{place_in};

use load::{Load, MOST_ROWS, MOST_STEPS};
use rules::{Blame, LargestW, MOST_PLACES};

// Gives the place and row with the largest W among the places between the first 1 to 8 steps, the
// lowest place where several are equal; 0 and 0 where every W is 0.
pub fn cut_blames(places: &[LargestW; MOST_PLACES]) -> [Blame; MOST_STEPS]
    ensures { result ≡ list_to (blame_among (place_in places.now)) most_steps }
{
    let mut worst = Blame { place: 0, row: 0 };
    let mut most: u16 = 0;
    let mut blames = [worst; MOST_STEPS];
    for (k, place) in places.iter().enumerate() {
        if most < place.left {
            most = place.left;
            worst = Blame {
                place: k as u8 + 1,
                row: place.row,
            };
        }
        blames[k + 1] = worst;
    }
    blames
}

// Gives whom each row of an accepted load blames, by the blames of the load cut at 1 to 8 steps;
// rows not there blame nobody.
pub fn blames_by(load: &Load, cut: &[Blame; MOST_STEPS]) -> [Blame; MOST_ROWS]
    requires { Acceptable (view_of load.now)
        × (cut.now ≡ list_to (blame_among (place_in (place_waits (view_of load.now)))) most_steps) }
    ensures { result ≡ blames (view_of load.now) }
{
    let rows = load.rows as usize;
    let mut blames = [Blame { place: 0, row: 0 }; MOST_ROWS];
    // Counted, as two arrays are gone over: the rows, and whom they blame.
    for i in 0..rows {
        blames[i] = cut[load.row[i].steps as usize - 1];
    }
    blames
}
