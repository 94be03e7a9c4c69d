//! What a document resolves to, and whether an entry has expired.
ghost use Rattle.std.specs.Prelude.{◌≡◌, ◌↔◌, IsTrue};
ghost use Rattle.std.specs.Option.{option_copied};
ghost use Rattle.cbt_model.specs.View.{view, IsExpired};

use crate::entries::{Entry, EntryState};
use crate::states::State;
use cbt_base::{DocId, ms};
use cbt_json::Json;

/// What a document resolves to: the staged content where it is staged by an attempt whose entry, in
/// the transaction record that the staging names, is committed, and otherwise the body.
///
/// A staged remove counts as none. It takes no memory.
pub fn view<'a>(state: &'a State, doc: &DocId) -> Option<&'a Json>
    ensures { option_copied result ≡ view state.now doc.now }
{
    let there = state.docs.get(doc)?;
    match &there.stage {
        None => there.body.as_ref(),
        Some(stage) => match state.entries.get(&(stage.atr, stage.attempt)) {
            None => there.body.as_ref(),
            Some(entry) => match entry.state {
                EntryState::Committed => stage.content.as_ref(),
                EntryState::Pending | EntryState::Aborted => there.body.as_ref(),
            },
        },
    }
}

/// Whether an entry has stood for longer than it may, at these milliseconds of the node's clock. It
/// takes no memory.
pub fn expired(entry: &Entry, now: u64) -> bool
    ensures { IsTrue result ↔ IsExpired entry.now now }
{
    u128::from(ms(entry.start)) + u128::from(entry.exp) < u128::from(now)
}
