// Standard input, read as far as there is room, and what is told where a write fails.
// It stands alike in each program: a library's call has a relation, and what comes from standard
// input has none (D96).
ghost use Rattle.std.specs.Prelude.{◌≤◌, length};

use std::io::{self, Read};
use std::process::ExitCode;

// Reads until the buffer is full, the input ends or a read fails, and gives how many bytes there
// are.
pub fn read_full(mut input: impl Read + Drop, buffer: &mut [u8]) -> usize
    ensures { result ≤ length buffer.new }
{
    let mut size = 0;
    while size < buffer.len() {
        let read = input.read(&mut buffer[size..]).unwrap_or(0);
        if read == 0 {
            break;
        }
        size += read;
    }
    size
}

// Gives an error's words without the system's number for it.
fn without_number(said: &str) -> &str {
    match said.split_once(" (os error ") {
        Some((words, _)) => words,
        None => said,
    }
}

// Tells what failed on standard error, and why in the system's words. Gives the status to end with.
pub fn tell_failed<R: Eprint + Alloc>(
    rt: &R,
    what: &str,
    error: io::Error,
) -> io::Result<ExitCode> {
    let said = error.to_string(rt.alloc())?;
    let why = without_number(&said);
    eprintln!(rt; "{what}: {why}")?;
    Ok(ExitCode::FAILURE)
}
