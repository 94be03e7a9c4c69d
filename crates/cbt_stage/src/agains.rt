//! The machine of one write of a document over the attempt's own write of it.

ghost use Rattle.std.specs.Prelude.{◌≡◌, ◌<◌, true, List, [], ◌∷◌, None, Some, IsTrue, IsSome, IfOk, IfSome};
ghost use Rattle.std.specs.Option.{option_copied};
ghost use Rattle.cbt_model.specs.Fitting.{content_fits, fits, step_fits};
ghost use Rattle.cbt_model.specs.declared.events.Made.{Made};
ghost use Rattle.cbt_model.specs.declared.steps.Step.{Step};
ghost use Rattle.cbt_book.specs.Calls.{WriteTerms};
ghost use Rattle.cbt_stage.specs.PutCalls.{terms_of};
ghost use Rattle.cbt_stage.specs.Rewrites.{asked_by, call_left, ended, rewrite_of, CanWriteAgain};
ghost use Rattle.cbt_stage.specs.Rewriting.{StandsOnce};

use crate::ends::PutEnd;
use crate::rewrites::Rewrite;
use cbt_attempt::{Attempt, Own};
use cbt_base::{DocId, NoMemory};
use cbt_book::When;
use cbt_json::Json;
use cbt_model::{Answer, OpKind, Reply, Step};
use std::alloc::Global;

/// One write of a document over an own write that has a stamp: it is staged over that, or takes it
/// back. It makes one call.
#[derive(Drop)]
pub struct Again {
    pub task: Rewrite,
    pub end: Option<PutEnd>,
}

impl Again {
    /// A write by an attempt whose entry was sent and that has an own write of the document, with a
    /// stamp: an insert over a remove, a replace over an insert or a replace, or a remove over one of
    /// these. The content is missing exactly for a remove.
    pub fn begin(
        alloc: Global,
        attempt: &Attempt,
        doc: DocId,
        kind: OpKind,
        content: Option<Json>,
    ) -> Result<Again, NoMemory>
        requires own { CanWriteAgain attempt.now doc kind }
        requires fits { content_fits kind content ≡ true }
        ensures task { IfOk result (λ again. Some again.task ≡ rewrite_of attempt.now doc kind content) }
        ensures going { IfOk result (λ again. again.end ≡ None) }
        ensures stands { IfOk result (λ again. StandsOnce (terms_of attempt.now) again []) }
    {
        let task = Rewrite::new(alloc, attempt, doc, kind, content)?;
        Ok(Again { task, end: None })
    }

    /// The call to make now; none where it has ended.
    pub fn next(&self, alloc: Global) -> Result<Option<Step>, NoMemory>
        ensures step { IfOk result (λ step. step ≡ asked_by self.now) }
        ensures fits { IfOk result (λ step. IfSome step (λ s. IsTrue (step_fits s))) }
    {
        match &self.end {
            None => Ok(Some(self.task.call(alloc)?)),
            Some(_) => Ok(None),
        }
    }

    /// Takes in the answer to the call that `next` gave, which ends it. It takes no memory.
    pub fn learn(&mut self, answer: Answer)
        requires asked { IsSome (asked_by self.old) }
        requires fits { (s : Step) → asked_by self.old ≡ Some s → IsTrue (fits s answer.reply) }
        ensures end { self.new ≡ record self.old {
          end = Some (ended self.old.task.back answer.place answer.reply);
        } }
        ensures stands { (t : WriteTerms) (mine : List Made) (s : Step) → asked_by self.old ≡ Some s
            → StandsOnce t self.old mine
            → StandsOnce t self.new (record { step = s; answer = answer } ∷ mine) }
        ensures fewer { call_left self.new < call_left self.old }
    {
        self.end = Some(ended(self.task.back, answer.place, &answer.reply));
    }

    /// How it ended; none while it asks for a call.
    pub fn end(&self) -> Option<&PutEnd>
        ensures { option_copied result ≡ self.now.end }
    {
        self.end.as_ref()
    }

    /// The document and what was to be staged, or the own write that was to be taken back, without a
    /// stamp. It takes no memory.
    pub fn take_write(self) -> (DocId, Own)
        ensures { result ≡ (self.task.doc, self.task.write) }
    {
        let Again { task, end: _end } = self;
        (task.doc, task.write)
    }
}

// How the write ended, once its call had this reply at this place.
fn ended(back: bool, place: u64, reply: &Reply) -> PutEnd
    ensures { result ≡ ended back place reply.now }
{
    match reply {
        Reply::Done { .. } if back => PutEnd::Unstaged { place },
        Reply::Done { .. } => PutEnd::Staged {
            place,
            base: When::Own,
        },
        Reply::Failed => PutEnd::CallFailed { place },
        // Of the answers that fit only refusals are left.
        _ => PutEnd::Moved,
    }
}
