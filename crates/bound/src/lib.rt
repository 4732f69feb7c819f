// The bound of a load, its margins, its verdict, whom its rows blame, and the largest W of each
// place. Each call takes a load in memory and checks it once; a refusal comes alone. One look at an
// accepted load gives all of them.
#![tactic(auto)]

mod answers;
mod blames;
mod bounds;
mod bytes;
mod cut;
mod margins;
mod places;
mod smallest;
mod waits;

ghost use Rattle.bound.specs.Calls.{
  BoundOf,
  MarginsOf,
  VerdictOf,
  BlamesOf,
  AnswersOf,
  PlaceWaitsOf,
};

use answers::answers;
pub use bytes::margin_bytes;
use load::{Load, MOST_ROWS, check_load};
use refusals::Refusal;
use rules::{Blame, LargestW, MOST_PLACES};
use waits::place_waits;

// The margins of a load, and whom each row blames.
// An array for each, here and in Answered: BlamesOf and AnswersOf give margins and blames apart.
#[derive(Clone, Copy)]
pub struct Blamed {
    pub margins: [i32; MOST_ROWS],
    pub blames: [Blame; MOST_ROWS],
}

// Bound, margins, verdict and blames of a load.
#[derive(Clone, Copy)]
pub struct Answered {
    pub bound: u32,
    pub margins: [i32; MOST_ROWS],
    pub verdict: bool,
    pub blames: [Blame; MOST_ROWS],
}

// Gives the bound of a load, or what the load is refused for.
pub fn bound_of(load: Load) -> Result<u32, Refusal>
    ensures { BoundOf load result }
{
    Ok(answers(&load)?.bound)
}

// Gives all margins of a load, those of rows not there 0; or what the load is refused for.
pub fn margins_of(load: Load) -> Result<[i32; MOST_ROWS], Refusal>
    ensures { MarginsOf load result }
{
    let margins = answers(&load)?.margins;
    Ok(margins)
}

// Gives the verdict of a load: yes when no margin is negative; or what the load is refused for.
pub fn verdict_of(load: Load) -> Result<bool, Refusal>
    ensures { VerdictOf load result }
{
    Ok(answers(&load)?.verdict)
}

// Gives whom each row of a load blames, the place and row with the largest W of its cut load, and
// the margins beside them, those of rows not there 0; or what the load is refused for.
pub fn blames_of(load: Load) -> Result<Blamed, Refusal>
    ensures { BlamesOf load result }
{
    let Answered {
        margins,
        blames,
        ..
    } = answers(&load)?;
    Ok(Blamed { margins, blames })
}

// Gives bound, margins, verdict and blames of a load, or what the load is refused for.
pub fn answers_of(load: Load) -> Result<Answered, Refusal>
    ensures { AnswersOf load result }
{
    answers(&load)
}

// Gives the largest W of each place of a load, nothing cut, with the lowest row that has it, and 0
// and 0 where every W is 0; or what the load is refused for.
pub fn place_waits_of(load: Load) -> Result<[LargestW; MOST_PLACES], Refusal>
    ensures { PlaceWaitsOf load result }
{
    check_load(load)?;
    Ok(place_waits(&load))
}
