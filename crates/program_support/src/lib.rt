// What the programs share: printing on standard output, and the walk over the records that have a slot.
#![tactic(auto)]

pub mod digits;
pub mod input;
pub mod loans;
pub mod print;
pub mod slots;
