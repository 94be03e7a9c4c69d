//! JSON values: null, truth values, whole numbers of 64 bits, texts, lists and objects whose names
//! rise by bytes.
#![tactic(auto)]

mod attributes;
mod fault;
mod fit;
mod laws;
mod printing;
mod reading;
mod rules;
mod same;
mod tree;
mod value;

pub use fault::JsonFault;
pub use laws::{reading_keeps_rules, text_reads_back};
pub use tree::Tree;
pub use value::Json;
