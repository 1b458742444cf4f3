// Words for contracts are definitions alone: specs/. There is no code here.
#![tactic(auto)]
