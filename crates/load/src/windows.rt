// Which steps of a row are embedded: in a window, but not its first. Every other step is free.
ghost use Rattle.std.specs.Prelude.{◌≡◌};
ghost use Rattle.load.specs.Load.{shown};
ghost use Rattle.load.specs.View.{embedded_in};
ghost use Rattle.load.specs.Calls.{EmbeddedAt};

use crate::{Row, Window};

// Says whether the step at a place is in a window, but not its first.
fn embedded_in(window: Window, j: usize) -> bool
    ensures { result ≡ embedded_in (shown j) window }
{
    window.first as usize <= j && j < window.last as usize
}

// Says whether the step at a place of a row is embedded; past the last step none is, where the
// windows end within the steps.
#[inline]
pub fn embedded_at(row: Row, j: usize) -> bool
    ensures { EmbeddedAt row j result }
{
    row.window
        .iter()
        .take(row.windows as usize)
        .any(|window| embedded_in(*window, j))
}
