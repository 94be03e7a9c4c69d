//! Paths, look-ups and changes in one JSON document.
#![tactic(auto)]

mod along;
mod changes;
mod edits;
mod laws;
mod looks;
mod members;
mod parsing;
mod path;
mod reaching;
mod values;

pub use changes::{Mut, MutFault, MutOp, MutValue, apply_change, mut_fits, mutate};
pub use edits::Refusal;
pub use laws::{bad_byte_is_first, names_are_keys, set_value_is_found, what_is_written_is_read};
pub use looks::{Look, LookAnswer, lookup};
pub use path::{Part, Path, PathFault};
pub use values::macro_text;
