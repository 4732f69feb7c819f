// What stands in a line's last field, and what a dash or a limit there asks of the line before.
ghost use Rattle.std.specs.Prelude.{◌≡◌};
ghost use Rattle.sheet.specs.LineFaults.{is_dash, is_limit};
ghost use Rattle.sheet.specs.inner.Walk.{is_window_mark, dash_alone, limit_alone};

use sheet_line::Mark;

// Tells whether a mark is a dash.
pub fn is_dash(mark: Mark) -> bool
    ensures { result ≡ is_dash mark }
{
    matches!(mark, Mark::Dash)
}

// Tells whether a mark is a limit.
pub fn is_limit(mark: Mark) -> bool
    ensures { result ≡ is_limit mark }
{
    matches!(mark, Mark::Limit(_))
}

// Tells whether a mark is that of a window's step: a dash may follow it.
fn is_window_mark(mark: Mark) -> bool
    ensures { result ≡ is_window_mark mark }
{
    !matches!(mark, Mark::Nothing)
}

// Tells whether a mark is a dash that no window stands directly before in its row.
pub fn dash_alone(goes_on: bool, before: Mark, mark: Mark) -> bool
    ensures { result ≡ dash_alone goes_on before mark }
{
    is_dash(mark) && !(goes_on && is_window_mark(before))
}

// Tells whether the mark before began a window that this one does not go on with.
pub fn limit_alone(goes_on: bool, before: Mark, mark: Mark) -> bool
    ensures { result ≡ limit_alone goes_on before mark }
{
    is_limit(before) && !(goes_on && is_dash(mark))
}
