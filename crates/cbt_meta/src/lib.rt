//! The attribute `txn` of a staged document: a staging, written as JSON and read back.
#![tactic(auto)]

mod laws;
mod reading;
mod writing;

pub use laws::{only_stagings_are_read, stagings_read_back};
pub use reading::read;
pub use writing::write;
