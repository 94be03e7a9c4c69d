//! A cleaner's pass over one transaction record: what lost attempts staged is published or taken off,
//! and their entries are dropped. It is a machine that names its next call, learns the answer, and ends.
#![tactic(auto)]

mod covers;
mod laws;
mod passes;
mod phases;
mod staged;
mod waiting;

pub use covers::Cover;
pub use laws::{
    passes_are_licensed, passes_end_right, passes_go_on, passes_only_clean, passes_stay_bounded,
    passes_stay_open,
};
pub use passes::Pass;
pub use phases::Phase;
pub use staged::Staged;
pub use waiting::Waiting;
