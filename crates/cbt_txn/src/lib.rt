//! A client of distributed transactions. It goes through its transactions, one after another; each is tried until
//! it has ended; and a try goes through the operations and then commits what they staged or rolls it back.
#![tactic(auto)]

mod answers;
mod clients;
mod keeping;
mod laws;
mod operations;
mod origins;
mod starts;
mod transactions;
mod tries;

pub use clients::Client;
pub use keeping::{Terms, Trying};
pub use laws::{
    clients_have_calls, clients_tell, operations_are_licensed, steps_name_attempt,
    tries_are_licensed, tries_go_on, tries_stay_bounded, tries_stop,
};
pub use operations::{Operations, Work};
pub use origins::Origin;
pub use starts::{Beginning, Start};
pub use transactions::Transaction;
pub use tries::{Closing, Outcome, Try};
