//! What it is that the logs of a run follow their plans, and what the laws say of them.
#![tactic(auto)]

mod case;
mod laws;

pub use case::Case;
pub use laws::{
    completeness, fresh_openings, invariant, k1, k2, k3, k4, k5, k6, tables_count_commits,
};
