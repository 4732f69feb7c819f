// The program: reads a load file from standard input, and prints the lines of its load, or
// `refused` and the number. A failed read counts as the input's end; a failed write is said on
// standard error, with status 1.
#![tactic(auto)]

mod streams;

ghost use Rattle.std.specs.Prelude.{◌≤◌, length};
ghost use Rattle.report.specs.Program.{Answer};

use lines::{Text, text_of};
use load_records::MOST_FILE_BYTES;
use std::io;
use std::process::ExitCode;
use streams::{read_full, tell_failed};

// One byte more than the longest load file has: for a longer file the same is printed as for so
// many of its bytes.
const FILE_PLACES: usize = MOST_FILE_BYTES + 1;

// Gives all that is printed for the input of which so many first bytes were read.
fn answer(file: [u8; FILE_PLACES], size: usize) -> Text
    requires { size ≤ length file }
    ensures { Answer file size result }
{
    text_of(&file[..size])
}

// Reads, prints and writes.
// As in blame, `answer` too, but for one call and one text: no library call may read (D85).
fn main(rt: HostRuntime) -> io::Result<ExitCode> {
    let mut file = [0u8; FILE_PLACES];
    let size = read_full(rt.stdin(), &mut file);
    let text = answer(file, size);
    let length = text.length;
    let bytes = text.bytes;
    match rt.write_all(&bytes[..length]) {
        Ok(()) => Ok(ExitCode::SUCCESS),
        Err(error) => tell_failed(&rt, "report: standard output", error),
    }
}
