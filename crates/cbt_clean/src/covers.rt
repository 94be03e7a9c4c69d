//! What a pass covers, as far as it has come.

ghost use Rattle.std.specs.Prelude.{◌≡◌, length, slice_get};
ghost use Rattle.std.specs.Option.{option_copied};
ghost use Rattle.cbt_clean.specs.Phases.{docs_of};

use crate::waiting::Waiting;
use cbt_base::{DocId, Id, List};
use cbt_model::{Entry, Lists};

/// The attempts that a pass covers. One of them is being treated.
#[derive(Drop)]
pub struct Cover {
    /// All of them, in the order of the record.
    pub covered: List<Id>,
    /// The one that is treated.
    pub attempt: Id,
    /// Its entry, as it was read last.
    pub entry: Entry,
    /// Those behind it, with their entries.
    pub waiting: Waiting,
}

impl Cover {
    // The document at this place of those that the entry lists.
    pub(crate) fn document(&self, at: usize) -> Option<&DocId>
        ensures { option_copied result ≡ slice_get (docs_of self.now.entry.lists) at }
    {
        document(&self.entry.lists, at)
    }

    // How many documents the entry lists.
    pub(crate) fn documents(&self) -> usize
        ensures { result ≡ length (docs_of self.now.entry.lists) }
    {
        let lists = &self.entry.lists;
        // In memory no list is so long that the sum would not be a number.
        let inserts = lists.ins.as_slice().len();
        let replacements = lists.rep.as_slice().len();
        let removes = lists.rem.as_slice().len();
        inserts + replacements + removes
    }
}

// The document at this place of those that are listed: first the inserts, then the replacements, then
// the removes.
fn document(lists: &Lists, at: usize) -> Option<&DocId>
    ensures { option_copied result ≡ slice_get (docs_of lists.now) at }
{
    let inserts = lists.ins.len();
    if at < inserts {
        return lists.ins.get(at);
    }
    let at = at - inserts;
    let replacements = lists.rep.len();
    if at < replacements {
        return lists.rep.get(at);
    }
    lists.rem.get(at - replacements)
}
