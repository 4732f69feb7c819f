// The bench state by value: a fresh one, and what a start and a tick make of one.
ghost use Rattle.std.specs.Prelude.{◌≡◌, ◌+◌, ◌≤◌, ◌<◌};
ghost use Rattle.counting.specs.Lists.{member_at};
ghost use Rattle.load.specs.Load.{most_rows, last_moment};
ghost use Rattle.bench.specs.Held.{bench_at};
ghost use Rattle.bench.specs.inner.Moves.{bench_started};
ghost use Rattle.bench.specs.Calls.{Fresh};

use crate::Bench;
use load::MOST_ROWS;

// Gives the fresh bench, which is all zero.
pub fn fresh() -> Bench
    ensures { Fresh result }
{
    Bench {
        clock: 0,
        finished: [0; MOST_ROWS],
        end: [0; MOST_ROWS],
        opening: [0; MOST_ROWS],
    }
}

// Gives the end of a step that starts at a moment and takes so long.
pub fn end_of(moment: u32, long: u16) -> u32
    requires { moment ≤ last_moment }
    ensures { result ≡ moment + long }
{
    moment + long as u32
}

impl Bench {
    // Starts a row's next step, which takes so long, and sets the row's opening: the clock and the
    // row's end move to the end of the step.
    pub(crate) fn start(mut self, i: usize, long: u16, opening: u32) -> Bench
        requires { (i < most_rows) × (self.clock ≤ last_moment)
            × (member_at self.finished i < 255) }
        ensures { result ≡ bench_started self i long opening }
    {
        let end = end_of(self.clock, long);
        self.clock = end;
        self.finished[i] += 1;
        self.end[i] = end;
        self.opening[i] = opening;
        self
    }

    // Moves the clock one tick.
    pub(crate) fn idle(mut self) -> Bench
        requires { self.clock ≤ last_moment }
        ensures { result ≡ bench_at self (self.clock + 1) }
    {
        self.clock += 1;
        self
    }
}
