//! What a client's own list is, as far as the client has come: how the calls of its operations add up to
//! a try, tries to a transaction, and transactions to a log that follows the plan.
#![tactic(auto)]

mod laws;

pub use laws::{
    attempts_close, clients_follow, operations_add_up, stops_close, transactions_add_up,
    transactions_end, tries_add_up,
};
