// A test program, and no product: it answers a stream of questions on standard input, so that the
// public calls that read, write and check files can be compared from outside. A question is a
// letter and its bytes, with numbers little-endian; the module of a letter says which bytes, and
// what is answered. What is no question, or one cut short, is answered by `bad`, and ends the
// program; so does the input's end.
#![tactic(auto)]

mod checks;
mod exports;
mod given;
mod input;
mod loads;
mod memory;
mod output;
mod rooms;
mod schedules;
mod sheets;
mod slots;
mod written;

use given::{from_file, from_memory};
use input::read_whole;
use loads::Version;
use output::write_text;
use rooms::{Room, read_room};
use std::io::{BufReader, BufWriter, Read, Result, Write};

// Reads what follows a question's letter, and answers it. Says no where there is no such letter, or
// the question is cut short.
// A match, and no table of functions: the questions take different arguments.
fn answer_kind(input: &mut impl Read, output: &mut impl Write, letter: u8) -> Result<bool> {
    match letter {
        b'C' => checks::answer(from_file(input), input, output),
        b'D' => checks::answer(from_memory(input).map(Ok), input, output),
        b'W' => loads::answer(Version::First, Some(Room::Largest), input, output),
        b'w' => loads::answer(Version::First, read_room(input), input, output),
        b'V' => loads::answer(Version::Second, Some(Room::Largest), input, output),
        b'v' => loads::answer(Version::Second, read_room(input), input, output),
        b'S' => schedules::answer(Some(Room::Largest), input, output),
        b's' => schedules::answer(read_room(input), input, output),
        b'R' => sheets::answer(input, output),
        b'E' => exports::answer(Some(Room::Largest), input, output),
        b'e' => exports::answer(read_room(input), input, output),
        _ => Ok(false),
    }
}

// Answers the next question. Says no at the end of the input, and after `bad`.
// It stands twice, and `main` too: a library's call would need a contract on reading (D77).
fn answer_next(input: &mut impl Read, output: &mut impl Write) -> Result<bool> {
    let mut letter = [0u8; 1];
    if read_whole(input, &mut letter).is_none() {
        return Ok(false);
    }
    let is_answered = answer_kind(input, output, letter[0])?;
    if !is_answered {
        write_text(output, b"bad\n")?;
    }
    Ok(is_answered)
}

// A proved loop has to end, and nothing says that the input does. So there are only so many
// questions, more than any run has. Each is answered before the next is read. A failed write ends
// the program, with status 1.
fn main(rt: HostRuntime) -> Result<()> {
    let mut input = BufReader::new(rt.alloc(), rt.stdin())?;
    let mut output = BufWriter::new(rt.alloc(), rt.stdout())?;
    for _ in 0..u32::MAX {
        let is_answered = answer_next(&mut input, &mut output)?;
        output.flush()?;
        if !is_answered {
            break;
        }
    }
    Ok(())
}
