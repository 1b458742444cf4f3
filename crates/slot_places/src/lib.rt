// The places of a module's records are definitions and theorems alone: specs/ and proofs/. There is no code here.
#![tactic(auto)]
