// The sum of the r smallest of the 2r costs that r rows give, two each: by a cost that splits them,
// found by halving. The costs are read where they stand in the load, row by row, and are gathered
// nowhere.
ghost use Rattle.std.specs.Prelude.{◌≡◌, cond, ◌+◌, ◌≤◌, ◌<◌, ltb};
ghost use Rattle.counting.specs.Sums.{bit, count_to};
ghost use Rattle.counting.specs.Lists.{is_marked};
ghost use Rattle.counting.proofs.sorting.PairLaws.{pairs_smallest, Splits};
ghost use Rattle.load.specs.Load.{most_rows, largest_cost, step_at};
ghost use Rattle.rules.specs.Bound.{most_places};
ghost use Rattle.bound.specs.inner.Marks.{cost_at, Costed};

use load::{LARGEST_COST, Load, MOST_ROWS, Row};

// Gives how many of the first n rows are marked.
fn count_marked(n: usize, marks: &[bool; MOST_ROWS]) -> u32
    requires { n ≤ most_rows }
    ensures { (result ≡ count_to (is_marked marks.now) n) × (result ≤ n) }
{
    let mut count: u32 = 0;
    for marked in &marks[..n] {
        count += *marked as u32;
    }
    count
}

// Gives how many of a row's two costs, at a place and at the next, are below t.
// sum_below adds up for the same two: one function of both would take a closure and its clause.
fn count_below(row: &Row, j: usize, t: u16) -> u32
    requires { j < most_places }
    ensures { (result ≡ bit (ltb (step_at row.now j).cost t)
        + bit (ltb (step_at row.now (j + 1)).cost t))
        × (result ≤ 2) }
{
    (row.step[j].cost < t) as u32 + (row.step[j + 1].cost < t) as u32
}

// Gives a cost that is below t, and 0 for any other.
fn cost_below(cost: u16, t: u16) -> u32
    ensures { (result ≡ cond (ltb cost t) cost 0) × (result ≤ 65535) }
{
    if cost < t { cost as u32 } else { 0 }
}

// Adds those of a row's two costs, at a place and at the next, that are below t.
fn sum_below(row: &Row, j: usize, t: u16) -> u32
    requires { j < most_places }
    ensures { (result ≡ cond (ltb (step_at row.now j).cost t) (step_at row.now j).cost 0
        + cond (ltb (step_at row.now (j + 1)).cost t) (step_at row.now (j + 1)).cost 0)
        × (result ≤ 131070) }
{
    cost_below(row.step[j].cost, t) + cost_below(row.step[j + 1].cost, t)
}

// Gives the cost that splits the marked rows' costs, where r rows are marked: at most r costs are
// below it, and at least r are at most as large.
// The halving is a loop: the library halves a slice, and costs stand in none (D90).
fn splitting_cost(load: &Load, n: usize, j: usize, marks: &[bool; MOST_ROWS], r: u32) -> u16
    requires { Costed load.now n j marks.now × (r ≡ count_to (is_marked marks.now) n) }
    ensures { Splits
        (cost_at load.now j) (cost_at load.now (j + 1)) (is_marked marks.now) n result
        × (result ≤ largest_cost) }
{
    let mut low: u16 = 0;
    let mut high: u16 = LARGEST_COST as u16;
    while low < high {
        let half = (low + high) / 2;
        let mut up_to: u32 = 0;
        // Counted, as two arrays are read at one place: the marks and the rows.
        for k in 0..n {
            if marks[k] {
                up_to += count_below(&load.row[k], j, half + 1);
            }
        }
        if r <= up_to {
            high = half;
        } else {
            low = half + 1;
        }
    }
    low
}

// Gives the sum of the r smallest of the marked rows' costs by the cost t that splits them: those
// below it, and t for each that is still missing of the r.
fn sum_by(load: &Load, n: usize, j: usize, marks: &[bool; MOST_ROWS], r: u32, t: u16) -> u32
    requires { Costed load.now n j marks.now
        × (r ≡ count_to (is_marked marks.now) n) × (r ≤ n) × (t ≤ largest_cost)
        × Splits (cost_at load.now j) (cost_at load.now (j + 1)) (is_marked marks.now) n t }
    ensures { result ≡ pairs_smallest
        (cost_at load.now j) (cost_at load.now (j + 1)) (is_marked marks.now) n }
{
    let mut below: u32 = 0;
    let mut sum: u32 = 0;
    for k in 0..n {
        if marks[k] {
            let row = &load.row[k];
            below += count_below(row, j, t);
            sum += sum_below(row, j, t);
        }
    }
    sum + (r - below) * (t as u32)
}

// Gives the sum of the r smallest of the 2r costs of the marked rows, at a place and at the next.
pub fn smallest_sum(load: &Load, n: usize, j: usize, marks: &[bool; MOST_ROWS]) -> u32
    requires { Costed load.now n j marks.now }
    ensures { result ≡ pairs_smallest
        (cost_at load.now j) (cost_at load.now (j + 1)) (is_marked marks.now) n }
{
    let r = count_marked(n, marks);
    let t = splitting_cost(load, n, j, marks, r);
    sum_by(load, n, j, marks, r, t)
}
