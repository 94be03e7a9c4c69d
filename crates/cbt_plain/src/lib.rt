//! The typed node: a state, changed by the step table, with the history of its calls.
#![tactic(auto)]

mod counts;
mod plain;
mod readings;

pub use plain::Plain;
