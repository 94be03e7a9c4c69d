//! The entries that wait for their turn.

ghost use Rattle.std.specs.Prelude.{◌≡◌, ◌≢◌, [], ◌∷◌, map, filter, IfOk, OnErr, MatchOption};
ghost use Rattle.cbt_book.specs.Passes.{is_expired};

use cbt_base::{Id, List, NoMemory};
use cbt_model::{Entry, expired};
use std::alloc::Global;
use std::collections::VecDeque;
use std::marker::Model;

/// Attempts that are still to be treated, with their entries. Contracts see it as their list.
#[derive(Drop)]
pub struct Waiting {
    entries: VecDeque<(Id, Entry)>,
}

impl Model for Waiting {
    ghost use Rattle.std.specs.Prelude.{List, ℕ};
    ghost use Rattle.cbt_model.specs.declared.entries.Entry.{Entry};

    ghost Value = { List (ℕ × Entry) };

    ghost view = { λ w. w.entries.items };
}

impl Waiting {
    // It takes no memory.
    pub(crate) fn new(entries: List<(Id, Entry)>) -> Waiting
        ensures { result ≡ entries }
    {
        Waiting {
            entries: VecDeque::from_vec(entries.into_vec()),
        }
    }

    // Takes the first one out.
    pub(crate) fn pop(&mut self) -> Option<(Id, Entry)>
        ensures { MatchOption result ((self.old ≡ []) × (self.new ≡ []))
            (λ first. self.old ≡ first ∷ self.new) }
    {
        self.entries.pop_front()
    }
}

// Of the entries of a record those that have expired at this time, in their order. It takes no memory.
pub(crate) fn expired_of(entries: List<(Id, Entry)>, now: u64) -> List<(Id, Entry)>
    ensures { result ≡ filter (λ e. is_expired now e.1) entries }
{
    let mut entries = entries.into_vec();
    entries.retain(|entry| is_expired(&entry.1, now));
    List::from_vec(entries)
}

// Whether an entry has expired.
fn is_expired(entry: &Entry, now: u64) -> bool
    ensures { result ≡ is_expired now entry.now }
{
    expired(entry, now)
}

// The attempts of entries. Without any it takes no memory.
pub(crate) fn attempts_of(alloc: Global, entries: &List<(Id, Entry)>) -> Result<List<Id>, NoMemory>
    ensures ok { IfOk result (λ ids. ids ≡ map (λ e. e.0) entries.now) }
    ensures refused { OnErr result (entries.now ≢ []) }
{
    let mut ids = List::new(alloc);
    for entry in entries.as_slice() {
        ids.push(entry.0)?;
    }
    Ok(ids)
}
