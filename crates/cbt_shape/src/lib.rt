//! What the written forms of the protocol have in common: their fields and which one is the first bad
//! one, their numbers and their names.
#![tactic(auto)]

mod fault;
mod fields;
mod forms;
mod laws;
mod names;
mod numbers;
mod objects;

pub use fault::ShapeFault;
pub use fields::{Field, absent};
pub use forms::{atr_field, id_field, macro_field, txn_field, whole_field};
pub use laws::{id_texts_rise, names_read_back, only_names_are_read};
pub use names::{atr_name, id_of_text};
pub use objects::{has_only, member_at, members_of, part, put, text_of};
