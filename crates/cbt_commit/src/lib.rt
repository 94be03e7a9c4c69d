//! The commit of an attempt of a client-driven transaction: its commit, the publication of what it
//! staged, and the removal of its entry. It is a machine that names its next call, learns the answer,
//! and ends.
#![tactic(auto)]

mod finishes;
mod laws;
mod phases;
mod works;

pub use finishes::Finish;
pub use laws::{
    commits_are_licensed, commits_close, commits_end_right, commits_leave_writes,
    commits_stay_bounded,
};
pub use phases::{FinishEnd, Phase};
pub use works::Work;
