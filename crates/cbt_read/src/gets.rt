//! The machine of one read of a document by an attempt.
ghost use Rattle.std.specs.Prelude.{◌≡◌, ◌<◌, List, [], ◌∷◌, Some, None, Option, IsTrue, IsSome, IfOk, IfSome};
ghost use Rattle.std.specs.Option.{option_copied};
ghost use Rattle.cbt_model.specs.Fitting.{fits, step_fits};
ghost use Rattle.cbt_model.specs.declared.events.Made.{Made};
ghost use Rattle.cbt_model.specs.declared.steps.Step.{Step};
ghost use Rattle.cbt_book.specs.Calls.{MayGet};
ghost use Rattle.cbt_book.specs.Licence.{MayTake};
ghost use Rattle.cbt_book.specs.Numbers.{Identity};
ghost use Rattle.cbt_read.specs.Phases.{after, calls_left, end_of, step_of};
ghost use Rattle.cbt_read.specs.Standing.{StandsFor};

use crate::ends::GetEnd;
use crate::phases::Phase;
use cbt_base::{DocId, Duplicate, NoMemory};
use cbt_model::{Answer, Step};
use std::alloc::Global;

/// One read of a document. It asks for a call, learns the answer, and so on until it has ended.
///
/// The document may be staged by another attempt, whose entry then says what counts. It makes at most
/// 17 calls, all of them readings.
#[derive(Drop)]
pub struct Get {
    pub doc: DocId,
    pub phase: Phase,
}

impl Get {
    /// A read of this document. It takes no memory.
    pub fn begin(doc: DocId) -> Get
        ensures begun { result ≡ record { doc = doc; phase = Phase.Begun } }
        ensures stands { StandsFor result [] }
        ensures left { calls_left result ≡ 17 }
    {
        Get {
            doc,
            phase: Phase::Begun,
        }
    }

    /// The call to make now; none where it has ended.
    pub fn next(&self, alloc: Global) -> Result<Option<Step>, NoMemory>
        ensures step { IfOk result (λ step. step ≡ step_of self.now) }
        ensures fits { IfOk result (λ step. IfSome step (λ s. IsTrue (step_fits s))) }
        ensures reads { (s : Step) → step_of self.now ≡ Some s → MayGet self.now.doc s }
        // Readings need no licence.
        ensures licensed { (who : Identity) (l : List Made) (s : Step) → step_of self.now ≡ Some s
            → MayTake who l s }
    {
        match &self.phase {
            Phase::Begun | Phase::Again { .. } => Ok(Some(Step::ReadDoc {
                doc: self.doc.copy(alloc)?,
            })),
            Phase::Asking { staged, .. } => Ok(Some(Step::ReadEntry {
                atr: staged.stage.atr,
                attempt: staged.stage.attempt,
            })),
            Phase::Ended { .. } => Ok(None),
        }
    }

    /// Takes in the answer to the call that `next` gave. It takes no memory.
    pub fn learn(&mut self, answer: Answer)
        requires asked { IsSome (step_of self.old) }
        requires fits { (s : Step) → step_of self.old ≡ Some s → IsTrue (fits s answer.reply) }
        ensures phase { self.new ≡ record self.old {
          phase = after self.old.phase answer.place answer.reply;
        } }
        ensures stands { (mine : List Made) (s : Step) → step_of self.old ≡ Some s
            → StandsFor self.old mine
            → StandsFor self.new (record { step = s; answer = answer } ∷ mine) }
        ensures fewer { calls_left self.new < calls_left self.old }
    {
        let phase = std::mem::replace(&mut self.phase, Phase::Begun);
        self.phase = phase.after(answer);
    }

    /// How it ended; none while it asks for a call.
    pub fn end(&self) -> Option<&GetEnd>
        ensures { option_copied result ≡ end_of self.now }
    {
        match &self.phase {
            Phase::Ended { end } => Some(end),
            Phase::Begun | Phase::Asking { .. } | Phase::Again { .. } => None,
        }
    }

    /// How it ended, moved out; none while it asks for a call.
    pub fn into_end(self) -> Option<GetEnd>
        ensures { result ≡ end_of self }
    {
        let Get { doc: _doc, phase } = self;
        match phase {
            Phase::Ended { end } => Some(end),
            Phase::Begun | Phase::Asking { .. } | Phase::Again { .. } => None,
        }
    }
}
