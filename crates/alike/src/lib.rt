// Ours beside graph.rs, call by call: statements and their proofs. There is nothing to run.
#![tactic(auto)]
