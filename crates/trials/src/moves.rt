// The questions M and N: a load, from a file (M) or in memory (N), and a state of the bench.
// Answered by what the move hands back, on one line: `start` with row, step and start, `idle`,
// `done` or `refused` with its number; the lamp word, its count and the clock; and for each of 24
// rows steps finished, end and opening. A file that is refused is answered by `refused` and its
// number alone.
use crate::given::{Given, write_refused};
use crate::input::read_whole;
use crate::marked::write_marked;
use crate::output::{write_byte, write_number, write_text};
use bench::{Bench, Moved, fresh, next_move};
use load::MOST_ROWS;
use rules::Outcome;
use std::io::{Read, Result, Write};
use words::{byte_at, number32_at};

// A state is its clock (4 bytes) and 24 times the steps finished (1), the end (4) and the opening
// (4).
const STATE_SIZE: usize = 220;

const CLOCK_SIZE: usize = 4;

const ROW_SIZE: usize = 9;

// Gives the state that the bytes spell, as it is.
fn bench_from(bytes: &[u8]) -> Bench {
    let mut bench = fresh();
    bench.clock = number32_at(bytes, 0);
    // Counted, as three arrays are filled at one place.
    for i in 0..MOST_ROWS {
        let at = CLOCK_SIZE + ROW_SIZE * i;
        bench.finished[i] = byte_at(bytes, at);
        bench.end[i] = number32_at(bytes, at + 1);
        bench.opening[i] = number32_at(bytes, at + 5);
    }
    bench
}

// Writes what a move answered.
fn write_outcome(output: &mut impl Write, outcome: Outcome) -> Result<()> {
    match outcome {
        Outcome::Start(slot) => {
            write_number(output, b"start ", slot.row as u32)?;
            write_marked(output, b' ', slot.step as u32)?;
            write_marked(output, b' ', slot.start)
        }
        Outcome::Idle => write_text(output, b"idle"),
        Outcome::Done => write_text(output, b"done"),
        Outcome::Refused(refusal) => write_refused(output, refusal),
    }
}

// Writes what a state holds of a row.
fn write_row(output: &mut impl Write, finished: u8, end: u32, opening: u32) -> Result<()> {
    write_marked(output, b' ', finished as u32)?;
    write_marked(output, b':', end)?;
    write_marked(output, b':', opening)
}

// Writes what a state holds: the clock, and then every row.
fn write_bench(output: &mut impl Write, bench: Bench) -> Result<()> {
    write_number(output, b" clock ", bench.clock)?;
    // Counted, as three arrays are read at one place.
    for i in 0..MOST_ROWS {
        write_row(output, bench.finished[i], bench.end[i], bench.opening[i])?;
    }
    Ok(())
}

// Writes all that a move hands back.
fn write_moved(output: &mut impl Write, moved: Moved) -> Result<()> {
    write_outcome(output, moved.outcome)?;
    write_number(output, b" lamps ", moved.lamps)?;
    write_number(output, b" count ", moved.count)?;
    write_bench(output, moved.bench)
}

// Reads and answers the question. Says no where it is cut short, or the file too long.
pub fn answer(given: Given, input: &mut impl Read, output: &mut impl Write) -> Result<bool> {
    let Some(given) = given else {
        return Ok(false);
    };
    let mut state = [0u8; STATE_SIZE];
    if read_whole(input, &mut state).is_none() {
        return Ok(false);
    }
    match given {
        Ok(load) => write_moved(output, next_move(load, bench_from(&state)))?,
        Err(refusal) => write_refused(output, refusal)?,
    }
    write_byte(output, b'\n')?;
    Ok(true)
}
