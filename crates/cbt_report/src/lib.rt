//! The texts of a run: the report on its history, its transactions, its cleaners and its documents,
//! and the summary of it.
#![tactic(auto)]

mod cleaners;
mod lines;
mod outcomes;
mod replay;
mod report;
mod summary;

pub use report::report_of;
pub use summary::summary_of;
