//! What every layer stands on: lists, maps and texts that contracts see as plain data, identifiers,
//! the clock rule and clocks.
#![tactic(auto)]

mod clock;
mod doc_id;
mod id;
mod laws;
mod list;
mod map;
mod memory;
mod text;

pub use clock::{
    Clock, Hlc, ListClock, StepClock, clock_leads_by_one, leading_reading_is_now, ms,
    stamp_is_above_all_earlier,
};
pub use doc_id::{DocId, IdFault, MAX_ID_LEN};
pub use id::{Id, atr_of};
pub use laws::{get_after_insert, get_after_remove, id_texts_differ, identifiers_differ};
pub use list::List;
pub use map::Map;
pub use memory::{Duplicate, NoMemory};
pub use text::Text;
