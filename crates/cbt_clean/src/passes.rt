//! The machine of one pass.

ghost use Rattle.std.specs.Prelude.{◌≡◌, ◌≢◌, ◌<◌, [], ◌∷◌, List, Some, IsTrue, IsSome, IfOk, IfSome, OnOk, OnErr};
ghost use Rattle.std.specs.Option.{option_copied};
ghost use Rattle.cbt_model.specs.Fitting.{fits, step_fits};
ghost use Rattle.cbt_model.specs.declared.events.Made.{Made};
ghost use Rattle.cbt_model.specs.declared.steps.Step.{Step};
ghost use Rattle.cbt_book.specs.Passes.{covered_by};
ghost use Rattle.cbt_clean.specs.Phases.{after, calls_left, end_of, step_of};
ghost use Rattle.cbt_clean.specs.Standing.{StandsFor};

use crate::phases::Phase;
use cbt_base::{Duplicate, NoMemory};
use cbt_book::PassEnd;
use cbt_model::{Answer, Step};
use std::alloc::Global;

/// A pass over one transaction record. It asks for a call, learns the answer, and so on until it has
/// ended.
///
/// It reads the record, and treats the attempts whose entries have expired, one after the other. For
/// each it makes at most three calls, and two for each document that the entry lists.
#[derive(Drop)]
pub struct Pass {
    /// The transaction record.
    pub atr: u16,
    pub phase: Phase,
}

impl Pass {
    /// A pass over this transaction record. It takes no memory.
    pub fn begin(atr: u16) -> Pass
        ensures begun { result ≡ record { atr = atr; phase = Phase.Begun } }
        ensures stands { StandsFor result [] }
    {
        Pass {
            atr,
            phase: Phase::Begun,
        }
    }

    /// The call to make now; none where it has ended. It is an error where there is no memory for the
    /// call.
    pub fn next(&self, alloc: Global) -> Result<Option<Step>, NoMemory>
        ensures step { IfOk result (λ step. step ≡ step_of self.now) }
        ensures fits { IfOk result (λ step. IfSome step (λ s. IsTrue (step_fits s))) }
    {
        let atr = self.atr;
        match &self.phase {
            Phase::Begun => Ok(Some(Step::ReadAtr { atr })),
            Phase::Clearing { cover, at } => match cover.document(*at) {
                Some(doc) => Ok(Some(Step::ReadDoc {
                    doc: doc.copy(alloc)?,
                })),
                None => Ok(Some(Step::DropEntry {
                    atr,
                    attempt: cover.attempt,
                    guarded: false,
                })),
            },
            Phase::Taking { cover, at, staged } => match cover.document(*at) {
                Some(doc) => Ok(Some(staged.take_off(alloc, cover.entry.state, doc)?)),
                None => Ok(None),
            },
            Phase::Evicting { cover, .. } => Ok(Some(Step::DropEntry {
                atr,
                attempt: cover.attempt,
                guarded: true,
            })),
            Phase::Asking { cover } => Ok(Some(Step::ReadEntry {
                atr,
                attempt: cover.attempt,
            })),
            Phase::Ended { .. } => Ok(None),
        }
    }

    /// Takes in the answer to the call that `next` gave.
    ///
    /// At the first answer it makes the list of the attempts that it covers, where there are any. Where
    /// there is no memory for that it is an error, and the pass is as it was. No later answer takes memory.
    pub fn learn(&mut self, alloc: Global, answer: Answer) -> Result<(), NoMemory>
        requires asked { IsSome (step_of self.old) }
        requires fits { (s : Step) → step_of self.old ≡ Some s → IsTrue (fits s answer.reply) }
        ensures phase { OnOk result (self.new ≡ record self.old {
          phase = after self.old.atr self.old.phase answer.place answer.now answer.reply;
        }) }
        ensures stands { OnOk result ((mine : List Made) (s : Step) → step_of self.old ≡ Some s
            → StandsFor self.old mine
            → StandsFor self.new (record { step = s; answer = answer } ∷ mine)) }
        ensures fewer { OnOk result (calls_left self.new < calls_left self.old) }
        ensures refused { OnErr result (self.new ≡ self.old) }
        ensures first { OnErr result (self.old.phase ≡ Phase.Begun) }
        ensures covers { OnErr result (covered_by answer.reply answer.now ≢ []) }
    {
        let phase = std::mem::replace(&mut self.phase, Phase::Begun);
        self.phase = phase.after(alloc, self.atr, answer)?;
        Ok(())
    }

    /// How it ended; none while it asks for a call.
    pub fn end(&self) -> Option<&PassEnd>
        ensures { option_copied result ≡ end_of self.now }
    {
        match &self.phase {
            Phase::Ended { end } => Some(end),
            Phase::Begun
            | Phase::Clearing { .. }
            | Phase::Taking { .. }
            | Phase::Evicting { .. }
            | Phase::Asking { .. } => None,
        }
    }

    /// How it ended, moved out; none while it asks for a call.
    pub fn into_end(self) -> Option<PassEnd>
        ensures { result ≡ end_of self }
    {
        match self.phase {
            Phase::Ended { end } => Some(end),
            Phase::Begun
            | Phase::Clearing { .. }
            | Phase::Taking { .. }
            | Phase::Evicting { .. }
            | Phase::Asking { .. } => None,
        }
    }
}
