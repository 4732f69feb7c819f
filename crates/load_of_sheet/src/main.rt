// The program that makes load files: reads a route sheet from standard input, and writes the file
// of its load in version 1, which carries all that a sheet does. A sheet that is too long, or
// refused, writes nothing, and is told on standard error. A failed read counts as the input's end;
// a failed write is said on standard error. Where something is said there, the status is 1.
#![tactic(auto)]

mod streams;

ghost use Rattle.std.specs.Prelude.{◌≤◌, length};
ghost use Rattle.load_records.specs.Records.{most_file_bytes};
ghost use Rattle.sheet.specs.Inputs.{Places, IsLong};
ghost use Rattle.load_of_sheet.specs.Program.{Answer};

use load_records::{MOST_FILE_BYTES, version_1_size, write_version_1};
use refusals::{Refusal, number_of};
use sheet::read_sheet;
use std::io;
use std::process::ExitCode;
use streams::{read_full, tell_failed};

// The most bytes of an input that is read as a sheet.
const MOST_INPUT_BYTES: usize = 65536;

// One byte more, so that a longer input is seen to be longer.
const INPUT_PLACES: usize = MOST_INPUT_BYTES + 1;

// Gives the places that the input is read into. Its contract says only how many they are, so that
// no proof goes through them one by one.
fn places() -> [u8; INPUT_PLACES]
    ensures { Places result }
{
    [0; INPUT_PLACES]
}

// Says whether the input is too long, of which so many bytes were read.
fn is_long(size: usize) -> bool
    ensures { IsLong size result }
{
    size > MOST_INPUT_BYTES
}

// Makes the version 1 file of a sheet's load, in a room that is large enough for every file.
fn answer(sheet: &[u8], file: &mut [u8]) -> Result<usize, Refusal>
    requires { most_file_bytes ≤ length file.old }
    ensures { Answer sheet.now file.old result file.new }
{
    let load = read_sheet(sheet)?;
    write_version_1(load, file)?;
    Ok(version_1_size(load))
}

// Reads, makes the file and writes it.
fn main(rt: HostRuntime) -> io::Result<ExitCode> {
    let mut input = places();
    let size = read_full(rt.stdin(), &mut input);
    if is_long(size) {
        eprintln!(rt; "load-of-sheet: the input is longer than 65536 bytes")?;
        return Ok(ExitCode::FAILURE);
    }
    let mut file = [0u8; MOST_FILE_BYTES];
    let length = match answer(&input[..size], &mut file) {
        Ok(length) => length,
        Err(refusal) => {
            eprintln!(rt; "refused {}", number_of(refusal))?;
            return Ok(ExitCode::FAILURE);
        }
    };
    match rt.write_all(&file[..length]) {
        Ok(()) => Ok(ExitCode::SUCCESS),
        Err(error) => tell_failed(&rt, "load-of-sheet: standard output", error),
    }
}
