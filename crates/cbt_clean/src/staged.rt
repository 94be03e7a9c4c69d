//! What is taken off a document.

ghost use Rattle.std.specs.Prelude.{◌≡◌, IsTrue, IfOk};
ghost use Rattle.cbt_model.specs.Fitting.{step_fits};
ghost use Rattle.cbt_clean.specs.Phases.{publish, take_off};

use cbt_base::{DocId, Duplicate, NoMemory};
use cbt_json::Json;
use cbt_model::{EntryState, Step};
use std::alloc::Global;
use std::marker::Model;

/// A staging as a reading of its document showed it.
///
/// It may be published as it is: the content is a fit body, and missing where the document is to go.
#[derive(Drop)]
pub struct Staged {
    /// The stamp of the document.
    pub cas: u64,
    pub content: Option<Json>,
}

impl Model for Staged {
    ghost use Rattle.std.specs.Prelude.{◌≡◌, true};
    ghost use Rattle.std.specs.Coded.{codes};
    ghost use Rattle.cbt_json.specs.contracts.value.Json as json;
    ghost use Rattle.cbt_model.specs.Fitting.{body_fits_maybe};
    ghost use Rattle.cbt_clean.specs.Staging.{Staging};

    ghost Value = { Staging };

    ghost coded = { Prim.hlevel (codes, json.the_row.coded) };

    ghost view = { λ s. record { cas = s.cas; content = s.content } };

    ghost invariant = { λ s. body_fits_maybe s.content ≡ true };

    ghost inverse = { λ s. record { cas = s.cas; content = s.content } };
}

impl Staged {
    // The call that takes it off the document, where its attempt's entry is in this state.
    pub(crate) fn take_off(
        &self,
        alloc: Global,
        state: EntryState,
        doc: &DocId,
    ) -> Result<Step, NoMemory>
        ensures step { IfOk result (λ s. s ≡ take_off state doc.now self.now) }
        ensures fits { IfOk result (λ s. IsTrue (step_fits s)) }
    {
        let doc = doc.copy(alloc)?;
        match state {
            EntryState::Committed => self.publish(alloc, doc),
            EntryState::Pending | EntryState::Aborted => Ok(Step::Unstick { doc, cas: self.cas }),
        }
    }

    // The call that makes of the document what was staged.
    fn publish(&self, alloc: Global, doc: DocId) -> Result<Step, NoMemory>
        ensures step { IfOk result (λ s. s ≡ publish doc self.now.cas self.now.content) }
        ensures fits { IfOk result (λ s. IsTrue (step_fits s)) }
    {
        match &self.content {
            Some(body) => Ok(Step::Publish {
                doc,
                cas: self.cas,
                body: body.copy(alloc)?,
            }),
            None => Ok(Step::Delete { doc, cas: self.cas }),
        }
    }
}
