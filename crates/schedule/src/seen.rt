// What the check keeps from one slot to the next. It is held in fixed arrays, as long as a load and
// a row can be: the crate has no heap.
ghost use Rattle.std.specs.Prelude.{◌≡◌, ◌≤◌};
ghost use Rattle.load.specs.Load.{most_rows, most_steps};
ghost use Rattle.schedule.specs.inner.Seen.{advanced};

use load::{MOST_ROWS, MOST_STEPS};

// What the slots so far showed of a row: how many they are, and when the slot of each step starts.
#[derive(Clone, Copy, Default)]
pub struct RowSeen {
    pub count: u8,
    pub starts: [u32; MOST_STEPS],
}

// What the slots so far showed: when the last of them ends, and what they showed of each row.
#[derive(Clone, Copy, Default)]
pub struct Seen {
    pub end: u64,
    pub rows: [RowSeen; MOST_ROWS],
}

impl Seen {
    // Keeps a slot that is right, and ends then.
    pub(crate) fn keep(&mut self, row: u8, step: u8, start: u32, end: u64)
        requires row { (1 ≤ row) × (row ≤ most_rows) }
        requires step { (1 ≤ step) × (step ≤ most_steps) }
        ensures { self.new ≡ advanced self.old row step start end }
    {
        let seen = &mut self.rows[row as usize - 1];
        seen.count = step;
        seen.starts[step as usize - 1] = start;
        self.end = end;
    }
}
