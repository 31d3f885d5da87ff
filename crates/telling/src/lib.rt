// A run as it is printed: its answer lines, and behind them how it ended.
#![tactic(auto)]

pub mod parts;
