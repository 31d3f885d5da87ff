// What the contracts settle: statements and their proofs. There is nothing to run.
#![tactic(auto)]
