//! What driven actors leave: a legal run of licensed actors, whose logs follow their plans. Workers are
//! driven, and a sweep behind them, over any node.
#![tactic(auto)]

mod laws;
mod sweeps;

pub use laws::{driven_runs, stops_are_kept};
pub use sweeps::drive_then_sweep;
