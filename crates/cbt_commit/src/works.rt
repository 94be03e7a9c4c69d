//! What a commit publishes.

ghost use Rattle.std.specs.Prelude.{◌≡◌, Some, IsTrue, IfOk, IfSome};
ghost use Rattle.cbt_model.specs.Fitting.{step_fits};
ghost use Rattle.cbt_attempt.specs.OwnWrites.{noted};
ghost use Rattle.cbt_commit.specs.Phases.{unstage};
ghost use Rattle.cbt_commit.specs.Ready.{copied, written_of, CopiesNotes};

use cbt_attempt::Attempt;
use cbt_base::{DocId, Duplicate, NoMemory};
use cbt_json::Json;
use cbt_model::Step;
use indexmap::IndexMap;
use std::alloc::Global;
use std::marker::Model;

/// What was staged of a document.
///
/// It may be published as it is: the content is a fit body, and missing where the document is to go.
#[derive(Drop)]
pub struct Work {
    /// The stamp of the staging.
    pub cas: u64,
    pub content: Option<Json>,
}

impl Model for Work {
    ghost use Rattle.std.specs.Prelude.{◌≡◌, true};
    ghost use Rattle.std.specs.Coded.{codes};
    ghost use Rattle.cbt_json.specs.contracts.value.Json as json;
    ghost use Rattle.cbt_model.specs.Fitting.{body_fits_maybe};
    ghost use Rattle.cbt_commit.specs.Written.{Written};

    ghost Value = { Written };

    ghost coded = { Prim.hlevel (codes, json.the_row.coded) };

    ghost view = { λ w. record { cas = w.cas; content = w.content } };

    ghost invariant = { λ w. body_fits_maybe w.content ≡ true };

    ghost inverse = { λ w. record { cas = w.cas; content = w.content } };
}

impl Work {
    // The call that makes of this document what was staged.
    pub(crate) fn unstage(&self, alloc: Global, doc: &DocId) -> Result<Step, NoMemory>
        ensures step { IfOk result (λ s. s ≡ unstage doc.now self.now) }
        ensures fits { IfOk result (λ s. IsTrue (step_fits s)) }
    {
        let doc = doc.copy(alloc)?;
        match &self.content {
            Some(body) => Ok(Step::Publish {
                doc,
                cas: self.cas,
                body: body.copy(alloc)?,
            }),
            None => Ok(Step::Delete { doc, cas: self.cas }),
        }
    }
}

// The own writes of an attempt by document, in their order. One whose stamp is not known is left out.
pub(crate) fn works_of(alloc: Global, attempt: &Attempt) -> Result<IndexMap<DocId, Work>, NoMemory>
    ensures order { IfOk result (λ works. works.entries ≡ copied attempt.now.writes) }
    ensures just { IfOk result (λ works. CopiesNotes (noted attempt.now.writes) works.entries) }
{
    let mut works = IndexMap::new(alloc);
    for at in 0..usize::MAX {
        let Some((doc, _)) = attempt.write_at(at) else {
            return Ok(works);
        };
        let Some(work) = work_of(alloc, attempt, doc)? else {
            continue;
        };
        works.insert(doc.copy(alloc)?, work)?;
    }
    // No memory holds so many.
    Err(NoMemory)
}

// What an attempt staged of a document, where the stamp is known.
fn work_of(alloc: Global, attempt: &Attempt, doc: &DocId) -> Result<Option<Work>, NoMemory>
    ensures { IfOk result (λ work. work ≡ written_of (noted attempt.now.writes doc.now)) }
{
    let Some(own) = attempt.own(doc) else {
        return Ok(None);
    };
    let Some(cas) = own.cas else {
        return Ok(None);
    };
    let content = own.content.copy(alloc)?;
    Ok(Some(Work { cas, content }))
}
