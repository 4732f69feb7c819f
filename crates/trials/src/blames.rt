// The questions P and p: a load, from a file (P) or in memory (p). They are answered on one line:
// `waits` and the largest W of each place with its row, `blames` and for each of 24 rows the place
// and row that it blames, and for p `margins` and the margins beside them. A refused load is
// answered by `refused` and its number.
use crate::given::{Given, write_refused};
use crate::marked::{write_marked, write_signed};
use crate::output::{write_byte, write_text};
use bound::{Blamed, blames_of, place_waits_of};
use load::{Load, MOST_ROWS};
use rules::{Blame, LargestW, MOST_PLACES};
use std::io::{Result, Write};

// Writes a number and the row that it belongs to.
fn write_of(output: &mut impl Write, number: u32, row: u8) -> Result<()> {
    write_marked(output, b' ', number)?;
    write_marked(output, b':', row as u32)
}

// Writes the largest W of each place.
// The next two differ in text and in how a value is written: one for all would take closures.
fn write_waits(output: &mut impl Write, places: [LargestW; MOST_PLACES]) -> Result<()> {
    write_text(output, b"waits")?;
    for place in &places {
        write_of(output, place.left as u32, place.row)?;
    }
    Ok(())
}

// Writes whom each row blames.
fn write_blames(output: &mut impl Write, blames: [Blame; MOST_ROWS]) -> Result<()> {
    write_text(output, b" blames")?;
    for blame in &blames {
        write_of(output, blame.place as u32, blame.row)?;
    }
    Ok(())
}

// Writes the margins.
fn write_margins(output: &mut impl Write, margins: [i32; MOST_ROWS]) -> Result<()> {
    write_text(output, b" margins")?;
    for margin in &margins {
        write_signed(output, *margin)?;
    }
    Ok(())
}

// Writes what is told of a load.
fn write_told(
    output: &mut impl Write,
    places: [LargestW; MOST_PLACES],
    told: Blamed,
    with_margins: bool,
) -> Result<()> {
    write_waits(output, places)?;
    write_blames(output, told.blames)?;
    if with_margins {
        write_margins(output, told.margins)?;
    }
    Ok(())
}

// Writes what is told of a load, or what it is refused for. Both calls refuse the same.
// `with_margins` tells p from P: an Option of the margins would have to be made from it.
fn write_load(output: &mut impl Write, load: Load, with_margins: bool) -> Result<()> {
    match (place_waits_of(load), blames_of(load)) {
        (Ok(places), Ok(told)) => write_told(output, places, told, with_margins),
        (Err(refusal), _) | (_, Err(refusal)) => write_refused(output, refusal),
    }
}

// Answers the question. Says no where it is cut short, or the file too long.
pub fn answer(given: Given, with_margins: bool, output: &mut impl Write) -> Result<bool> {
    match given {
        None => return Ok(false),
        Some(Ok(load)) => write_load(output, load, with_margins)?,
        Some(Err(refusal)) => write_refused(output, refusal)?,
    }
    write_byte(output, b'\n')?;
    Ok(true)
}
