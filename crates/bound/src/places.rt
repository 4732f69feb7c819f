// Which rows are free at a place of a load. They are marked in an array, so that the loops above
// look at no row's windows again.
ghost use Rattle.std.specs.Prelude.{◌≡◌, ◌≤◌};
ghost use Rattle.load.specs.Load.{most_rows};
ghost use Rattle.bound.specs.inner.Marks.{free_in, frees_at};

use load::{Load, MOST_ROWS, Row, embedded_at};
use std::array;

// Says whether a row has a step at a place and that step is free.
fn free_in(row: &Row, j: usize) -> bool
    ensures { result ≡ free_in row.now j }
{
    j < row.steps as usize && !embedded_at(*row, j)
}

// Marks the rows whose step at a place is there and free.
pub fn frees_at(load: &Load, j: usize) -> [bool; MOST_ROWS]
    requires { load.now.rows ≤ most_rows }
    ensures { result ≡ frees_at load.now j }
{
    array::from_fn(|i| i < load.rows as usize && free_in(&load.row[i], j))
}
