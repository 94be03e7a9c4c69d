//! What a client notes of one try of a transaction: its own writes in the order of their first
//! staging, what it read last of each document, and whether its entry was sent.
#![tactic(auto)]

mod attempt;
mod laws;
mod ordered;
mod own;

pub use attempt::Attempt;
pub use laws::{
    may_abort, may_commit, notes_begin, notes_follow_stagings, notes_follow_unsticks, notes_stay,
};
pub use own::Own;
