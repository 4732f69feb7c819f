// The program that makes route sheets: reads a load file from standard input, and writes the sheet
// of its load. A file that is too long, or refused, or has a class that is not 0, which no sheet
// carries, writes nothing, and is told on standard error. A failed read counts as the input's end;
// a failed write is said on standard error. Where something is said there, the status is 1.
#![tactic(auto)]

mod streams;

ghost use Rattle.std.specs.Prelude.{◌≤◌, length};
ghost use Rattle.sheet.specs.Writing.{most_sheet_bytes};
ghost use Rattle.sheet.specs.Inputs.{Places, IsLong};
ghost use Rattle.sheet_of_load.specs.Program.{Answer};

use load_file::read_load;
use refusals::{Refusal, number_of};
use sheet::{MOST_SHEET_BYTES, write_sheet};
use std::io;
use std::process::ExitCode;
use streams::{read_full, tell_failed};

// The most bytes of an input that is read as a load file.
const MOST_INPUT_BYTES: usize = 65536;

// One byte more, so that a longer input is seen to be longer.
const INPUT_PLACES: usize = MOST_INPUT_BYTES + 1;

// Gives the places that the input is read into. Its contract says only how many they are, so that
// no proof goes through them one by one.
fn places() -> [u8; INPUT_PLACES]
    ensures { Places result }
{
    [0; INPUT_PLACES]
}

// Says whether the input is too long, of which so many bytes were read.
fn is_long(size: usize) -> bool
    ensures { IsLong size result }
{
    size > MOST_INPUT_BYTES
}

// Makes the sheet of a file's load, in a room that is large enough for every sheet. Refuses with
// the file's own numbers, then with 22.
fn answer(file: &[u8], sheet: &mut [u8]) -> Result<usize, Refusal>
    requires { most_sheet_bytes ≤ length sheet.old }
    ensures { Answer file.now sheet.old result sheet.new }
{
    write_sheet(read_load(file)?, sheet)
}

// Reads, makes the sheet and writes it.
fn main(rt: HostRuntime) -> io::Result<ExitCode> {
    let mut input = places();
    let size = read_full(rt.stdin(), &mut input);
    if is_long(size) {
        eprintln!(rt; "sheet-of-load: the input is longer than 65536 bytes")?;
        return Ok(ExitCode::FAILURE);
    }
    let mut sheet = [0u8; MOST_SHEET_BYTES];
    let length = match answer(&input[..size], &mut sheet) {
        Ok(length) => length,
        Err(refusal) => {
            eprintln!(rt; "refused {}", number_of(refusal))?;
            return Ok(ExitCode::FAILURE);
        }
    };
    match rt.write_all(&sheet[..length]) {
        Ok(()) => Ok(ExitCode::SUCCESS),
        Err(error) => tell_failed(&rt, "sheet-of-load: standard output", error),
    }
}
