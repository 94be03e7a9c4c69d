//! The text of a run's history: its script, and each event with what it was answered; and its reading.
#![tactic(auto)]

mod events;
mod events_read;
mod faults;
mod fields;
mod histories;
mod histories_read;
mod laws;
mod name_lists;
mod names_read;
mod replies;
mod reply_forms;
mod scripts_read;
mod step_forms;
mod steps;
mod steps_read;

pub use faults::HistoryFault;
pub use histories::history_of;
pub use histories_read::history_read;
pub use laws::{
    canonical_lines_go_on, histories_read_back, history_lines_are_good, replies_have_64_bits,
};
