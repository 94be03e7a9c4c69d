//! A cleaner as an actor: in rounds it takes its share of the transaction records, and makes a pass over
//! each of them. A sweep makes one round over all records.
#![tactic(auto)]

mod cleaners;
mod gone;
mod laws;
mod rounds;
mod spans;
mod tours;

pub use cleaners::Cleaner;
pub use laws::{cleaners_are_licensed, cleaners_tell};
pub use rounds::{Round, Terms, Work};
pub use tours::{Tour, Under};
