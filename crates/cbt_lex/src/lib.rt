//! What texts are made of: lines, words, decimal numbers and names.
#![tactic(auto)]

mod decimals;
mod lines;
mod names;
mod words;

pub use decimals::{number, push_number};
pub use lines::{cut_line, trim};
pub use names::{is_a_name, may_stand_in_name};
pub use words::{cut_word, past_spaces};
