//! Documents with attributes and tombstones, and the calls that look into them and change them.
#![tactic(auto)]

mod calls;
mod contents;
mod docs;
mod refusals;

pub use calls::{change_doc, look_doc};
pub use docs::{BodyChange, Doc, DocCall, DocExpect, DocFault, DocMut};
