//! Scripts from a number: clients that move amounts between accounts, and the order in which they go.
#![tactic(auto)]

mod accounts;
mod clients;
mod draws;
mod expressions;
mod generator;
mod names;
mod order;
mod transfers;
mod values;

pub use generator::gen_script;
