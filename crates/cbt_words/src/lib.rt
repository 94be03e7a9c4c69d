//! The words behind the program's name, and the commands that they are.
#![tactic(auto)]

mod command;
mod generator;
mod history;
mod options;

pub use command::{Command, command_of};
