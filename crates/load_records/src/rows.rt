// The records of a row, put together: its own record, its steps and then its windows. No call
// refuses.
ghost use Rattle.std.specs.Prelude.{◌≡◌, ◌+◌, ◌*◌, ◌≤◌, length};
ghost use Rattle.std.proofs.lemmas.List.Edits.{sets};
ghost use Rattle.counting.specs.Lists.{join_in};
ghost use Rattle.load_records.specs.Records.{row_record};
ghost use Rattle.load_records.specs.Writing.{counted_row, row_bytes};
ghost use Rattle.load_records.specs.Calls.{records_holding, RowRecordsOf};

use crate::RowRecords;
use crate::records::{
    MOST_ROW_BYTES, Part, STEP_SIZE, VERSION_2, WINDOW_SIZE, row_record, row_size,
};
use load::{MOST_STEPS, MOST_WINDOWS, Row};

// Gives the row with no more steps and windows than have a place.
#[tactic(auto, unfolding(crate::specs::Writing::counted_row))]
fn counted_row(row: Row) -> Row
    ensures { result ≡ counted_row row }
{
    Row {
        steps: row.steps.min(MOST_STEPS as u8),
        windows: row.windows.min(MOST_WINDOWS as u8),
        ..row
    }
}

// Writes a row's own record at the output's front, as a version has it.
fn write_own(out: &mut [u8], version: u8, row: Row)
    ensures { out.new ≡ sets out.old 0 (row_record version row) }
{
    let own = row_record(row);
    words::overwrite(out, 0, &own[..row_size(version)]);
}

// Writes the records of parts, one behind the other, from a place on.
fn write_parts<P: Part<SIZE>, const SIZE: usize>(out: &mut [u8], at: usize, parts: &[P])
    requires { at + SIZE * length parts.now ≤ 8192 }
    ensures { out.new ≡ sets out.old at (join_in P.bytes parts.now) }
{
    let mut place = at;
    for part in parts {
        words::overwrite(out, place, &part.record());
        place += SIZE;
    }
}

// Gives how many bytes a row has in a version with its steps and its windows.
pub fn row_length(version: u8, row: Row) -> usize
    ensures { result ≡ length (row_bytes version row) }
{
    row_size(version) + STEP_SIZE * row.steps as usize + WINDOW_SIZE * row.windows as usize
}

// Gives a row's own record, then its steps' and its windows' records, as a version has them, and
// zeros behind them. Steps and windows that have no place do not count.
pub fn records_in(version: u8, row: Row) -> RowRecords
    ensures { result ≡ records_holding (row_bytes version (counted_row row)) }
{
    let counted = counted_row(row);
    let mut bytes = [0u8; MOST_ROW_BYTES];
    let size = row_size(version);
    let steps = counted.steps as usize;
    let windows = counted.windows as usize;
    write_own(&mut bytes, version, counted);
    write_parts(&mut bytes, size, &counted.step[..steps]);
    write_parts(
        &mut bytes,
        size + STEP_SIZE * steps,
        &counted.window[..windows],
    );
    RowRecords {
        length: row_length(version, counted),
        bytes,
    }
}

// Gives a row's own record, then its steps' and its windows' records, as the newest version has
// them, and zeros behind them. Steps and windows that have no place do not count.
pub fn row_records(row: Row) -> RowRecords
    ensures { RowRecordsOf row result }
{
    records_in(VERSION_2, row)
}
