// The chain of a row's steps: all their costs, and the waits between them.
ghost use Rattle.load.specs.Calls.{ChainBetween};

use crate::Row;
use crate::parts::step_at;

// Gives the chain of the steps from one place on and below another, which is 0 where there is none.
// Past the last place a step is one of zeros.
pub fn chain_between(row: Row, from: u8, to: u8) -> u32
    ensures { ChainBetween row from to result }
{
    if to <= from {
        return 0;
    }
    let mut sum: u32 = 0;
    let last = to as usize - 1;
    for j in from as usize..last {
        let step = step_at(row, j);
        sum += step.cost as u32 + step.wait as u32;
    }
    let step = step_at(row, last);
    sum + step.cost as u32
}
