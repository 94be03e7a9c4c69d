//! Drives actors over a node in one thread, in a stated order.
#![tactic(auto)]

mod driver;
mod going;
mod items;
mod rounds;
mod stops;
mod visits;

pub use driver::drive_in_order;
