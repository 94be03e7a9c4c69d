//! What a script says: its settings, documents, clients and cleaners, and what is to go wrong.
#![tactic(auto)]

mod cause;
mod clients;
mod course;
mod documents;
mod draft;
mod fields;
mod keywords;
mod laws;
mod limits;
mod operations;
mod printing;
mod reading;
mod script;
mod settings;

pub use cause::{Bad, Cause, ScriptFault};
pub use laws::{openings_are_fresh, scripts_keep_rules, text_reads_back, written_text_reads_back};
pub use script::Script;
