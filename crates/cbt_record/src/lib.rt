//! How the active cleaners share the transaction records.
#![tactic(auto)]

mod laws;
mod shares;

pub use laws::records_have_one_cleaner;
pub use shares::{is_active, share};
