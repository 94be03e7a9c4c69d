//! The rollback of an attempt of a client-driven transaction: its abort, the taking off of what it
//! staged, and the removal of its entry. It is a machine that names its next call, learns the answer,
//! and ends.
#![tactic(auto)]

mod laws;
mod phases;
mod undos;

pub use laws::{
    undos_are_licensed, undos_close, undos_end_attempts, undos_end_right, undos_go_on,
    undos_stay_bounded,
};
pub use phases::{Phase, UndoEnd};
pub use undos::Undo;
