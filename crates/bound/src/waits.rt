// W: what is left of a free wait once the r smallest of the other rows' 2r costs are taken off, and
// the largest of it at a place, with its row.
ghost use Rattle.std.specs.Prelude.{cond, ◌≡◌, ◌+◌, ◌-◌, ◌≤◌, ◌<◌, ltb};
ghost use Rattle.counting.specs.Sums.{any_to};
ghost use Rattle.counting.specs.Lists.{is_marked};
ghost use Rattle.counting.proofs.sorting.PairLaws.{pairs_smallest};
ghost use Rattle.load.specs.Load.{most_rows};
ghost use Rattle.load.specs.View.{view_of};
ghost use Rattle.load.specs.Acceptable.{Acceptable};
ghost use Rattle.rules.specs.Blame.{place_waits};
ghost use Rattle.bound.specs.inner.Marks.{
  cost_at,
  wait_at,
  is_other,
  Costed,
  left_in,
  largest_to,
};

use crate::places::frees_at;
use crate::smallest::smallest_sum;
use load::{Load, MOST_ROWS};
use rules::{LargestW, MOST_PLACES};
use std::array;

// Gives the larger of a W found before and one more, with its row: the one before where they are
// equal.
fn larger(most: LargestW, left: u16, row: u8) -> LargestW
    ensures { result ≡ cond (ltb most.left left) (record { left = left; row = row }) most }
{
    if most.left < left {
        LargestW { left, row }
    } else {
        most
    }
}

// Gives what is left of row i's wait at a place: the wait less the r smallest of the 2r costs of
// the other rows that are paired, or 0.
fn wait_left(load: &Load, n: usize, j: usize, pairs: &[bool; MOST_ROWS], i: usize) -> u16
    requires { Costed load.now n j pairs.now × (i < n) }
    ensures { result ≡ wait_at load.now j i - pairs_smallest
        (cost_at load.now j) (cost_at load.now (j + 1)) (is_other pairs.now i) n }
{
    let wait = load.row[i].step[j].wait;
    let mut others = *pairs;
    others[i] = false;
    let given = smallest_sum(load, n, j, &others);
    (wait as u32).saturating_sub(given) as u16
}

// Gives the largest of what is left of the free waits of the first n rows at a place, with its row;
// 0 and 0 where nothing is left.
fn largest_left(
    load: &Load,
    n: usize,
    j: usize,
    pairs: &[bool; MOST_ROWS],
    frees: &[bool; MOST_ROWS],
) -> LargestW
    requires { Costed load.now n j pairs.now }
    ensures { result ≡ largest_to (left_in
        (λ i. pairs_smallest
        (cost_at load.now j) (cost_at load.now (j + 1)) (is_other pairs.now i) n)
        (wait_at load.now j) frees.now) n }
{
    let mut most = LargestW { left: 0, row: 0 };
    // Counted, as the number of the row is handed on, and shown in what is given.
    for i in 0..n {
        if frees[i] {
            let left = wait_left(load, n, j, pairs, i);
            most = larger(most, left, i as u8 + 1);
        }
    }
    most
}

// Says whether one of the first n rows is marked.
fn any_marked(n: usize, marks: &[bool; MOST_ROWS]) -> bool
    requires { n ≤ most_rows }
    ensures { result ≡ any_to (is_marked marks.now) n }
{
    marks.iter().take(n).any(|marked| *marked)
}

// Gives the largest W of each place of an accepted load; 0 and 0 where no row has a free wait
// there.
pub fn place_waits(load: &Load) -> [LargestW; MOST_PLACES]
    requires { Acceptable (view_of load.now) }
    ensures { result ≡ place_waits (view_of load.now) }
{
    let rows = load.rows as usize;
    let mut places = [LargestW { left: 0, row: 0 }; MOST_PLACES];
    for j in 0..MOST_PLACES {
        let frees = frees_at(load, j + 1);
        if any_marked(rows, &frees) {
            let before = frees_at(load, j);
            let pairs = array::from_fn(|i| before[i] && frees[i]);
            places[j] = largest_left(load, rows, j, &pairs, &frees);
        }
    }
    places
}
