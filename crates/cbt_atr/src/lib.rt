//! The attribute `attempts` of a transaction record: its entries, written as JSON and read back.
#![tactic(auto)]

mod documents;
mod laws;
mod reading;
mod states;
mod writing;

pub use laws::{entries_read_back, only_entries_are_read};
pub use reading::read;
pub use writing::write;
