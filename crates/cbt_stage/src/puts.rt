//! The machine of one write of a document on which the attempt has no own write.

ghost use Rattle.std.specs.Prelude.{◌≡◌, ◌≤◌, ◌<◌, true, List, [], ◌∷◌, Some, IsTrue, IsSome, IfOk, IfSome};
ghost use Rattle.std.specs.Option.{option_copied};
ghost use Rattle.cbt_model.specs.Fitting.{content_fits, fits, step_fits};
ghost use Rattle.cbt_model.specs.declared.events.Made.{Made};
ghost use Rattle.cbt_model.specs.declared.steps.Step.{Step};
ghost use Rattle.cbt_book.specs.Calls.{WriteTerms};
ghost use Rattle.cbt_stage.specs.Phases.{after, calls_left, end_of, start, step_of};
ghost use Rattle.cbt_stage.specs.PutCalls.{terms_of};
ghost use Rattle.cbt_stage.specs.Standing.{StandsFor};
ghost use Rattle.cbt_stage.specs.Tasks.{is_staging, record_added, task_of};

use crate::ends::PutEnd;
use crate::phases::Phase;
use crate::tasks::Task;
use cbt_attempt::{Attempt, Own};
use cbt_base::{DocId, NoMemory};
use cbt_book::Seen;
use cbt_json::Json;
use cbt_model::{Answer, OpKind, Step};
use std::alloc::Global;

/// One write of a document, over what was read of it. It asks for a call, learns the answer, and so
/// on until it has ended.
///
/// Where the write of another attempt waits in the document it asks for that attempt's entry, until
/// the entry is gone; then it adds the own entry, where none was sent, and stages. It makes at most 6
/// calls.
#[derive(Drop)]
pub struct Put {
    pub task: Task,
    pub phase: Phase,
}

impl Put {
    /// A write by an attempt that has no own write of the document, which was read as `seen`. The
    /// content is missing exactly for a remove. It takes no memory.
    pub fn begin(
        attempt: &Attempt,
        doc: DocId,
        kind: OpKind,
        content: Option<Json>,
        seen: Seen,
    ) -> Put
        requires atrs { (1 ≤ attempt.now.atrs) × (attempt.now.atrs ≤ 1024) }
        requires fits { content_fits kind content ≡ true }
        ensures task { result.task ≡ task_of attempt.now doc kind content seen }
        ensures phase { result.phase ≡ start (task_of attempt.now doc kind content seen) }
        ensures stands { StandsFor (terms_of attempt.now) result [] }
        ensures left { calls_left result ≤ 6 }
    {
        let task = Task::new(attempt, doc, kind, content, seen);
        let phase = Phase::start(&task);
        Put { task, phase }
    }

    /// The call to make now; none where it has ended.
    pub fn next(&self, alloc: Global) -> Result<Option<Step>, NoMemory>
        ensures step { IfOk result (λ step. step ≡ step_of self.now) }
        ensures fits { IfOk result (λ step. IfSome step (λ s. IsTrue (step_fits s))) }
    {
        match &self.phase {
            Phase::Asking { atr, by, .. } => Ok(Some(Step::ReadEntry {
                atr: *atr,
                attempt: *by,
            })),
            Phase::Adding => Ok(Some(Step::AddEntry {
                atr: self.task.atr,
                attempt: self.task.attempt,
                exp: self.task.exp,
            })),
            Phase::Staging => Ok(Some(self.task.stages(alloc)?)),
            Phase::Ended { .. } => Ok(None),
        }
    }

    /// Takes in the answer to the call that `next` gave. It takes no memory.
    pub fn learn(&mut self, answer: Answer)
        requires asked { IsSome (step_of self.old) }
        requires fits { (s : Step) → step_of self.old ≡ Some s → IsTrue (fits s answer.reply) }
        ensures phase { self.new ≡ record self.old {
          phase = after self.old.task self.old.phase answer.place answer.reply;
        } }
        ensures stands { (t : WriteTerms) (mine : List Made) (s : Step) → step_of self.old ≡ Some s
            → StandsFor t self.old mine
            → StandsFor t self.new (record { step = s; answer = answer } ∷ mine) }
        ensures fewer { calls_left self.new < calls_left self.old }
    {
        self.phase = self.phase.after(&self.task, answer.place, &answer.reply);
    }

    /// How it ended; none while it asks for a call.
    pub fn end(&self) -> Option<&PutEnd>
        ensures { option_copied result ≡ end_of self.now }
    {
        match &self.phase {
            Phase::Ended { end } => Some(end),
            Phase::Asking { .. } | Phase::Adding | Phase::Staging => None,
        }
    }

    /// The transaction record to which the attempt's entry is sent now. It takes no memory.
    pub fn adding(&self) -> Option<u16>
        ensures { result ≡ record_added (step_of self.now) }
    {
        match &self.phase {
            Phase::Adding => Some(self.task.atr),
            Phase::Asking { .. } | Phase::Staging | Phase::Ended { .. } => None,
        }
    }

    /// Whether the call to make now stages the write. It takes no memory.
    pub fn staging(&self) -> bool
        ensures { result ≡ is_staging (step_of self.now) }
    {
        matches!(&self.phase, Phase::Staging)
    }

    /// The document and what was to be staged, without a stamp. It takes no memory.
    pub fn take_write(self) -> (DocId, Own)
        ensures { result ≡ (self.task.doc, self.task.write) }
    {
        let Put {
            task,
            phase: _phase,
        } = self;
        (task.doc, task.write)
    }
}
