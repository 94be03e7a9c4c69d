//! Reads of one document by an attempt of a client-driven transaction. A read is a machine: it names
//! its next call, learns the answer, and ends with what it found.
#![tactic(auto)]

mod ends;
mod gets;
mod laws;
mod phases;

pub use ends::GetEnd;
pub use gets::Get;
pub use laws::{gets_end_right, gets_go_on, gets_stay_bounded};
pub use phases::{Phase, Staged};
