//! What a transaction keeps: under what it is made, and its try.

ghost use Rattle.std.specs.Prelude.{◌≤◌, ◌<◌, ◌^◌};

use crate::tries::Try;

/// Under what a transaction is made, apart from its plan: its client's number among the actors, its own
/// among the client's, both from 1, and how many transaction records there are.
#[derive(Clone, Copy)]
pub struct Terms {
    pub client: u32,
    pub number: u16,
    pub atrs: u16,
    ghost numbered: { (1 ≤ client) × (1 ≤ number) },
    ghost records: { (1 ≤ atrs) × (atrs ≤ 1024) },
    ghost small: { (client < 2 ^ 32) × (number < 2 ^ 16) },
}

/// The try under way, or the last one.
#[derive(Drop)]
pub struct Trying {
    pub it: Try,
    ghost records: { (1 ≤ it.operations.attempt.atrs) × (it.operations.attempt.atrs ≤ 1024) },
}
