// Writes a load as its file, in a version: the header, then each row with its steps and then its
// windows, then the end record. Refuses a load that its check refuses, one that version 1 does not
// carry, and an output shorter than the file.
ghost use Rattle.std.specs.Prelude.{◌≡◌, ◌+◌, length, Ok};
ghost use Rattle.std.proofs.lemmas.List.Edits.{sets};
ghost use Rattle.counting.specs.Lists.{join_to};
ghost use Rattle.load.specs.Load.{row_at};
ghost use Rattle.load.specs.Check.{check_load};
ghost use Rattle.load_records.specs.Records.{header_kind};
ghost use Rattle.load_records.specs.Writing.{row_bytes, load_bytes, write_fault};
ghost use Rattle.load_records.specs.Calls.{
  SizeIn,
  WriteIn,
  Version1Size,
  Version2Size,
  WriteVersion1,
  WriteVersion2,
};

use crate::records::{END_SIZE, HEADER_SIZE, VERSION_1, VERSION_2, end_record, header_record};
use crate::rows::{records_in, row_length};
use load::Load;
use refusals::Refusal;

// Checks a load that is to be written in a version: its own numbers, and 22 where the version does
// not carry it.
fn check_written(version: u8, load: Load) -> Result<(), Refusal>
    ensures { result ≡ write_fault version load }
{
    if version == VERSION_2 {
        load::check_load(load)
    } else {
        load::check_plain(load)
    }
}

// Gives how many bytes the file has of a load that passes its check.
fn whole_size(version: u8, load: Load) -> usize
    requires { check_load load ≡ Ok tt }
    ensures { result ≡ length (load_bytes version load) }
{
    let mut size = HEADER_SIZE + END_SIZE;
    for row in &load.row[..load.rows as usize] {
        size += row_length(version, *row);
    }
    size
}

// Gives how many bytes the file of a load has in a version; 0 where the load is refused, which has
// none.
fn size_in(version: u8, load: Load) -> usize
    ensures { SizeIn version load result }
{
    if check_written(version, load).is_err() {
        return 0;
    }
    whole_size(version, load)
}

// Writes the rows of a load behind the header, and gives the place behind them.
fn write_rows(version: u8, out: &mut [u8], load: Load) -> usize
    requires { check_load load ≡ Ok tt }
    ensures value { result ≡ header_kind.size
        + length (join_to (λ i. row_bytes version (row_at load i)) load.rows) }
    ensures out_after { out.new
        ≡ sets out.old header_kind.size
        (join_to (λ i. row_bytes version (row_at load i)) load.rows) }
{
    let mut at = HEADER_SIZE;
    for row in &load.row[..load.rows as usize] {
        let records = records_in(version, *row);
        words::overwrite(out, at, &records.bytes[..records.length]);
        at += records.length;
    }
    at
}

// Writes the file of a load at the output's front.
fn write_file(version: u8, out: &mut [u8], load: Load)
    requires { check_load load ≡ Ok tt }
    ensures { out.new ≡ sets out.old 0 (load_bytes version load) }
{
    let header = header_record(version, load.rows);
    words::overwrite(out, 0, &header);
    let at = write_rows(version, out, load);
    let end = end_record(load::steps_in(load));
    words::overwrite(out, at, &end);
}

// Writes a load as its file in a version. Refuses, in this order, a load that is not to be written
// in it and an output that is shorter than the file (9); a refusal alters no byte. Bytes past the
// file stay.
fn write_in(version: u8, load: Load, out: &mut [u8]) -> Result<(), Refusal>
    ensures { WriteIn version load out.old result out.new }
{
    check_written(version, load)?;
    if out.len() < whole_size(version, load) {
        return Err(Refusal::OutputShort);
    }
    write_file(version, out, load);
    Ok(())
}

// Gives how many bytes the version 1 file of a load has; 0 where the load is refused, with its own
// numbers or with 22.
// docs/BELIEVE.md names it and the three calls below, so all stay: each is one line.
pub fn version_1_size(load: Load) -> usize
    ensures { Version1Size load result }
{
    size_in(VERSION_1, load)
}

// Gives how many bytes the version 2 file of a load has; 0 where the load is refused.
pub fn version_2_size(load: Load) -> usize
    ensures { Version2Size load result }
{
    size_in(VERSION_2, load)
}

// Writes a load as its version 1 file. Refuses, in this order, a load that its check refuses, one
// with a class that is not 0 or a head that is not 1 (22), and an output that is shorter than the
// file (9); a refusal alters no byte. Bytes past the file stay.
pub fn write_version_1(load: Load, out: &mut [u8]) -> Result<(), Refusal>
    ensures { WriteVersion1 load out.old result out.new }
{
    write_in(VERSION_1, load, out)
}

// Writes a load as its version 2 file. Refuses, in this order, a load that its check refuses and an
// output that is shorter than the file (9); a refusal alters no byte. Bytes past the file stay.
pub fn write_version_2(load: Load, out: &mut [u8]) -> Result<(), Refusal>
    ensures { WriteVersion2 load out.old result out.new }
{
    write_in(VERSION_2, load, out)
}
