// What a call gives back when it does not do what it was asked: one refusal, with its number.
#![tactic(auto)]

ghost use Rattle.refusals.specs.Calls.{NumberOf, NumberGiven};

// The refusals, in the order of their numbers.
#[derive(Clone, Copy, Debug, PartialEq, Eq)]
pub enum Refusal {
    FileShort,
    MarkDiffers,
    OutOfRange,
    IdentifierTaken,
    BoxTaken,
    WindowSteps,
    LimitBelowChain,
    EndDiffers,
    OutputShort,
    StateShape,
    ClockFull,
    SlotCount,
    NoSuchSlot,
    SlotOverlaps,
    SlotEarly,
    WindowLate,
    RowLate,
    LineMalformed,
    RowDiffers,
    WindowDash,
    FactoryIdentifier,
    NotCarried,
}

// A refusal's number.
impl From<Refusal> for u32 {
    ghost from_gives = { NumberOf };

    // A match over the names, as each number of the table belongs to one refusal.
    fn from(refusal: Refusal) -> u32 {
        match refusal {
            Refusal::FileShort => 1,
            Refusal::MarkDiffers => 2,
            Refusal::OutOfRange => 3,
            Refusal::IdentifierTaken => 4,
            Refusal::BoxTaken => 5,
            Refusal::WindowSteps => 6,
            Refusal::LimitBelowChain => 7,
            Refusal::EndDiffers => 8,
            Refusal::OutputShort => 9,
            Refusal::StateShape => 10,
            Refusal::ClockFull => 11,
            Refusal::SlotCount => 12,
            Refusal::NoSuchSlot => 13,
            Refusal::SlotOverlaps => 14,
            Refusal::SlotEarly => 15,
            Refusal::WindowLate => 16,
            Refusal::RowLate => 17,
            Refusal::LineMalformed => 18,
            Refusal::RowDiffers => 19,
            Refusal::WindowDash => 20,
            Refusal::FactoryIdentifier => 21,
            Refusal::NotCarried => 22,
        }
    }
}

// Gives a refusal's number.
pub fn number_of(refusal: Refusal) -> u32
    ensures { NumberOf refusal result }
{
    u32::from(refusal)
}

// Gives the number of what a check finds; 0 where it refuses nothing.
// A number and no Option: it is what C is told, 0 as well (D47).
pub fn number_given(found: Result<(), Refusal>) -> u32
    ensures { NumberGiven found result }
{
    match found {
        Ok(()) => 0,
        Err(refusal) => number_of(refusal),
    }
}
