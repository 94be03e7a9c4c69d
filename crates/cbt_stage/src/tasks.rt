//! What a put is begun with.

ghost use Rattle.std.specs.Prelude.{◌≡◌, ◌≤◌, true, IfOk, IsTrue};
ghost use Rattle.cbt_book.specs.Outcomes.{expected};
ghost use Rattle.cbt_model.specs.Fitting.{content_fits, step_fits};
ghost use Rattle.cbt_stage.specs.Tasks.{record_of, stages, task_of};

use cbt_attempt::{Attempt, Own};
use cbt_base::{DocId, Duplicate, Id, NoMemory, atr_of};
use cbt_book::Seen;
use cbt_json::Json;
use cbt_model::{Expect, OpKind, Stage, Step};
use std::alloc::Global;

/// A write of a document, and what it stands on.
#[derive(Drop)]
pub struct Task {
    pub doc: DocId,
    pub attempt: Id,
    /// The transaction record to which the attempt's entry was sent, or will be.
    pub atr: u16,
    /// How many milliseconds the entry may stay.
    pub exp: u64,
    /// The entry was sent before the put began.
    pub sent: bool,
    /// What is staged. Until an answer comes it has no stamp.
    pub write: Own,
    /// What was read of the document.
    pub seen: Seen,
}

impl Task {
    // It takes no memory.
    pub(crate) fn new(
        attempt: &Attempt,
        doc: DocId,
        kind: OpKind,
        content: Option<Json>,
        seen: Seen,
    ) -> Task
        requires atrs { (1 ≤ attempt.now.atrs) × (attempt.now.atrs ≤ 1024) }
        requires fits { content_fits kind content ≡ true }
        ensures { result ≡ task_of attempt.now doc kind content seen }
    {
        let atr = record_of(attempt.sent(), &doc, attempt.atrs());
        Task {
            doc,
            attempt: attempt.id(),
            atr,
            exp: attempt.exp(),
            sent: attempt.sent().is_some(),
            write: Own {
                kind,
                content,
                cas: None,
            },
            seen,
        }
    }

    // The call that stages the write.
    pub(crate) fn stages(&self, alloc: Global) -> Result<Step, NoMemory>
        ensures step { IfOk result (λ step. step ≡ stages self.now) }
        ensures fits { IfOk result (λ step. IsTrue (step_fits step)) }
    {
        let doc = self.doc.copy(alloc)?;
        let content = self.write.content.copy(alloc)?;
        Ok(Step::Stage {
            doc,
            expect: expected(self.seen.cas),
            stage: Stage {
                attempt: self.attempt,
                atr: self.atr,
                kind: self.write.kind,
                content,
            },
        })
    }
}

// The transaction record of an attempt's entry: that to which it was sent, or else that of the document.
fn record_of(sent: Option<u16>, doc: &DocId, atrs: u16) -> u16
    requires { (1 ≤ atrs) × (atrs ≤ 1024) }
    ensures { result ≡ record_of sent doc.now atrs }
{
    match sent {
        Some(atr) => atr,
        None => atr_of(doc, atrs),
    }
}

// What a staging expects of a document that was read with this stamp.
fn expected(cas: Option<u64>) -> Expect
    ensures { result ≡ expected cas }
{
    match cas {
        Some(cas) => Expect::Cas(cas),
        None => Expect::New,
    }
}
