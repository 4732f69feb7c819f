// The margins of an accepted load, and whether any is negative.
ghost use Rattle.std.specs.Prelude.{not, ◌≡◌, ◌≤◌, pos, ◌-ℤ◌};
ghost use Rattle.counting.specs.Sums.{all_to};
ghost use Rattle.counting.specs.Lists.{list_to};
ghost use Rattle.load.specs.Load.{most_rows, most_steps, last_moment};
ghost use Rattle.load.specs.View.{view_of};
ghost use Rattle.load.specs.Acceptable.{Acceptable};
ghost use Rattle.rules.specs.Margins.{is_negative, margin_in, margins};
ghost use Rattle.rules.proofs.bound.BoundLaws.{largest_bound};
ghost use Rattle.bound.specs.inner.CutTerms.{bound_at};

use load::{Load, MOST_ROWS, MOST_STEPS};

// Gives a deadline less a bound, negative when time is missing.
fn margin_of(deadline: u32, bound: u32) -> i32
    requires { (deadline ≤ last_moment) × (bound ≤ largest_bound) }
    ensures { result ≡ pos deadline -ℤ pos bound }
{
    deadline as i32 - bound as i32
}

// Gives all margins of an accepted load, by the bounds of the load cut at 1 to 8 steps; those of
// rows not there are 0.
pub fn margins_by(load: &Load, bounds: &[u32; MOST_STEPS]) -> [i32; MOST_ROWS]
    requires { Acceptable (view_of load.now)
        × (bounds.now ≡ list_to (bound_at (view_of load.now)) most_steps) }
    ensures { result ≡ margins (view_of load.now) }
{
    let rows = load.rows as usize;
    let mut margins = [0i32; MOST_ROWS];
    // Counted, as two arrays are gone over: the rows and their margins.
    for i in 0..rows {
        let row = &load.row[i];
        margins[i] = margin_of(row.deadline, bounds[row.steps as usize - 1]);
    }
    margins
}

// Says whether none of the first n margins is negative; 0 is not.
pub fn none_negative(margins: &[i32; MOST_ROWS], n: usize) -> bool
    requires { n ≤ most_rows }
    ensures { result ≡ all_to (λ i. not (is_negative (margin_in margins.now i))) n }
{
    margins.iter().take(n).all(|margin| *margin >= 0)
}
