// That what an accepted check leaves can be read is theorems alone: specs/ and proofs/. There is no code here.
#![tactic(auto)]
