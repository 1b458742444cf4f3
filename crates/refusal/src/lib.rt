// Why a call is turned back: the causes, the number of each, and the place that it names.
#![tactic(auto)]

ghost use Rattle.std.specs.Prelude.{◌≡◌};
ghost use Rattle.refusal.specs.Refusal.{number_of, place_of};

// A cause, with the place that it names.
#[derive(Clone, Copy, Debug, PartialEq, Eq)]
pub enum Refusal {
    // The module is longer than 65,536 bytes.
    TooLong,
    // The layout has a fault, the first in byte order here.
    BadLayout(usize),
    // A record is deeper than 64 levels.
    TooDeep(usize),
    // A name is equal to an earlier one.
    RepeatedName(usize),
    // A buffer is too short for the module.
    ShortLoan,
    // More rows are needed than are lent.
    TooFewRows,
    // More errors are found than are lent.
    TooFewErrors,
    // The rows or the errors that are lent break a rule.
    UnsoundLoan,
    // The text has no room; so long a text is needed.
    NoRoomForText(usize),
}

impl Refusal {
    // The number of the cause.
    pub fn number(self) -> u32
        ensures { result ≡ number_of self }
    {
        match self {
            Refusal::TooLong => 1,
            Refusal::BadLayout(_) => 2,
            Refusal::TooDeep(_) => 3,
            Refusal::RepeatedName(_) => 4,
            Refusal::ShortLoan => 5,
            Refusal::TooFewRows => 6,
            Refusal::TooFewErrors => 7,
            Refusal::UnsoundLoan => 8,
            Refusal::NoRoomForText(_) => 9,
        }
    }

    // The place that the cause names, or the length that is needed; else 0.
    pub fn place(self) -> usize
        ensures { result ≡ place_of self }
    {
        match self {
            Refusal::BadLayout(place) => place,
            Refusal::TooDeep(place) => place,
            Refusal::RepeatedName(place) => place,
            Refusal::NoRoomForText(needed) => needed,
            _ => 0,
        }
    }
}
