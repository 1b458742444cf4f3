// The trees that the records of a module stand for are definitions and theorems alone: specs/ and proofs/. There is
// no code here.
#![tactic(auto)]
