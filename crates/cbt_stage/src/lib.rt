//! Writes of one document by an attempt of a client-driven transaction: over what was read of it, or
//! over the attempt's own write. Each is a machine: it names its next call, learns the answer, and ends
//! with what became of the write.
#![tactic(auto)]

mod agains;
mod ends;
mod laws;
mod phases;
mod puts;
mod rewrites;
mod tasks;

pub use agains::Again;
pub use ends::PutEnd;
pub use laws::{
    agains_are_licensed, agains_end_right, agains_stay_bounded, puts_are_licensed,
    puts_end_behind_gets, puts_end_right, puts_go_on, puts_stay_bounded, readings_are_parts,
};
pub use phases::Phase;
pub use puts::Put;
pub use rewrites::Rewrite;
pub use tasks::Task;
