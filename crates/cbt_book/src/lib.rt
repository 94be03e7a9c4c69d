//! What a run leaves: the logs of clients and cleaners, beside the history that was kept.
#![tactic(auto)]

mod book;
mod cleaners;
mod clients;
mod operations;
mod seen;

pub use book::Book;
pub use cleaners::{CleanerLog, PassEnd, PassLog, RoundLog, Share};
pub use clients::{AttemptEnd, AttemptLog, ClientLog, TxnEnd, TxnLog, Why};
pub use operations::{OpAnswer, OpLog, Span, When};
pub use seen::Seen;
