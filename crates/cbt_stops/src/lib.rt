//! What a stop leaves of a call that was asked for: what the actor was shown before stays so.
#![tactic(auto)]

mod laws;

pub use laws::shown_stays;
