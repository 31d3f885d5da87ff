// graph.rs as definitions, and a sample recorded from it that they compute to. There is nothing to run.
#![tactic(auto)]
