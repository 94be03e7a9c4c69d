//! The node that transactions run against, as plain data: its state, the step table, histories of
//! steps, and the traits of a node and of an actor that calls it.
#![tactic(auto)]

mod actors;
mod documents;
mod entries;
mod events;
mod fitting;
mod laws;
mod nodes;
mod outcomes;
mod states;
mod steps;
mod table;
mod views;

pub use actors::Actor;
pub use documents::{DocState, OpKind, Stage};
pub use entries::{ClientRow, Entry, EntryState, Lists};
pub use events::{Answer, Event, Fate, Fault, Faults, Item, Kept, Made, Mark};
pub use fitting::{fits, step_fits};
pub use laws::{
    done_steps_have_their_stamp, fates_of_calls, refused_steps_change_nothing, steps_change_one_key,
};
pub use nodes::Node;
pub use outcomes::{Happened, perform};
pub use states::State;
pub use steps::{Expect, Reply, Step};
pub use table::apply;
pub use views::{expired, view};
