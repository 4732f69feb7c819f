// The calls for C, which reading_bench_c exports. Each is lent the bytes of a load file and an
// output, and gives one number: what is wrong with the file, 1 to 8 or 21; then 9, where the output
// is shorter than the answer; else 0. A refusal alters no byte, and bytes past the answer stay. A
// refused file is looked at no further.
#![tactic(auto)]

ghost use Rattle.std.specs.Prelude.{◌≡◌, ℕ, List};
ghost use Rattle.refusals.specs.Checked.{Checked};
ghost use Rattle.refusals.specs.Given.{given};
ghost use Rattle.load.specs.View.{view_of};
ghost use Rattle.load_file.specs.Places.{load_in};
ghost use Rattle.load_file.specs.Reading.{file_for_bench};
ghost use Rattle.rules.specs.Margins.{margin_bytes};
ghost use Rattle.reading_bench.specs.Calls.{Numbered, BenchBound, BenchVerdict};
ghost use Rattle.reading_bench.specs.Calls.{BenchMargins, BenchSchedule};
ghost use Rattle.reading_bench.specs.Calls.{bound_bytes, verdict_bytes};

use bench::write_run;
use bound::{bound_of, margin_bytes, margins_of, verdict_of};
use load_file::read_load;
use refusals::{Refusal, number_given, number_of};
use words::{bytes32, overwrite};

// Writes an answer over the output's front and gives 0; or gives the number of the refusal, which
// is 9 where there is no room for the answer. A refusal alters no byte, and bytes past the answer
// stay.
fn give<const SIZE: usize>(answer: Result<[u8; SIZE], Refusal>, out: &mut [u8]) -> u32
    ensures { (finding : Checked) (bytes : List ℕ)
        → answer.entry ≡ given finding bytes → Numbered finding bytes out.old result out.new }
{
    match answer {
        Err(refusal) => number_of(refusal),
        Ok(_) if out.len() < SIZE => number_of(Refusal::OutputShort),
        Ok(bytes) => {
            overwrite(out, 0, &bytes);
            0
        }
    }
}

// Gives the bytes of the bound of a file's load.
fn bound_bytes(bytes: &[u8]) -> Result<[u8; 4], Refusal>
    ensures { result
        ≡ given (file_for_bench bytes.now) (bound_bytes (view_of (load_in bytes.now))) }
{
    Ok(bytes32(bound_of(read_load(bytes)?)?))
}

// Gives the byte of the verdict of a file's load.
fn verdict_bytes(bytes: &[u8]) -> Result<[u8; 1], Refusal>
    ensures { result
        ≡ given (file_for_bench bytes.now) (verdict_bytes (view_of (load_in bytes.now))) }
{
    Ok([verdict_of(read_load(bytes)?)? as u8])
}

// Gives the bytes of the margins of a file's load.
fn margins_bytes(bytes: &[u8]) -> Result<[u8; 96], Refusal>
    ensures { result
        ≡ given (file_for_bench bytes.now) (margin_bytes (view_of (load_in bytes.now))) }
{
    Ok(margin_bytes(margins_of(read_load(bytes)?)?))
}

// Writes the bound of a load: 4 bytes, little-endian.
pub fn bench_bound(load: &[u8], out: &mut [u8]) -> u32
    ensures { BenchBound load.now out.old result out.new }
{
    give(bound_bytes(load), out)
}

// Writes the verdict of a load: 1 byte, 1 for yes and 0 for no.
pub fn bench_verdict(load: &[u8], out: &mut [u8]) -> u32
    ensures { BenchVerdict load.now out.old result out.new }
{
    give(verdict_bytes(load), out)
}

// Writes all margins of a load: 96 bytes, 4 to a row, little-endian two's complement.
pub fn bench_margins(load: &[u8], out: &mut [u8]) -> u32
    ensures { BenchMargins load.now out.old result out.new }
{
    give(margins_bytes(load), out)
}

// Writes the schedule file of a load: the starts of its run, from fresh to Done.
pub fn bench_schedule(load: &[u8], out: &mut [u8]) -> u32
    ensures { BenchSchedule load.now out.old result out.new }
{
    number_given(write_run(load, out))
}
