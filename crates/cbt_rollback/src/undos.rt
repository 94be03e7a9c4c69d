//! The machine that rolls back one attempt.

ghost use Rattle.std.specs.Prelude.{◌≡◌, ℕ, ◌<◌, ◌≤◌, [], ◌∷◌, List, length, Some, None, IsTrue, IsSome, IfOk, IfSome, bytes_eq};
ghost use Rattle.std.specs.Option.{option_copied};
ghost use Rattle.std.specs.List.{IsDistinct};
ghost use Rattle.std.specs.Map.{keys_of};
ghost use Rattle.cbt_model.specs.Fitting.{fits, step_fits};
ghost use Rattle.cbt_model.specs.declared.events.Made.{Made};
ghost use Rattle.cbt_model.specs.declared.steps.Step.{Step};
ghost use Rattle.cbt_attempt.specs.OwnWrites.{lists_of, noted};
ghost use Rattle.cbt_rollback.specs.Phases.{after, calls_left, end_of, step_of, task_of};
ghost use Rattle.cbt_rollback.specs.Ready.{stamp_of, works_in, CopiesNotes, IsAbortable, IsOf, IsReady};
ghost use Rattle.cbt_rollback.specs.Standing.{StandsFor};

use crate::phases::{Phase, UndoEnd, after_abort, after_drop, after_reading, after_unstick};
use cbt_attempt::Attempt;
use cbt_base::{DocId, Duplicate, Id, NoMemory};
use cbt_model::{Answer, Lists, Step};
use indexmap::IndexMap;
use std::alloc::Global;

/// The rollback of one attempt. It asks for a call, learns the answer, and so on until it has ended.
///
/// It aborts the entry, takes off the own writes one after the other, and drops the entry. With n own
/// writes it makes at most 2 n + 2 calls.
#[derive(Drop)]
pub struct Undo {
    pub attempt: Id,
    /// The transaction record of its entry.
    pub atr: u16,
    /// The documents of its own writes, by kind.
    pub lists: Lists,
    /// The same documents, in the order of the own writes, each with the stamp of its staging. None
    /// means that a call on it failed, so that it may or may not be staged.
    pub works: IndexMap<DocId, Option<u64>>,
    pub phase: Phase,
}

impl Undo {
    /// The rollback of this attempt, which has sent its entry. Where none was sent there is nothing to
    /// roll back.
    pub fn begin(alloc: Global, attempt: &Attempt) -> Result<Undo, NoMemory>
        requires { IsSome attempt.now.sent }
        ensures attempt { IfOk result (λ undo. undo.attempt ≡ attempt.now.id) }
        ensures atr { IfOk result (λ undo. Some undo.atr ≡ attempt.now.sent) }
        ensures lists { IfOk result (λ undo. undo.lists ≡ lists_of attempt.now.writes) }
        // The works are the own writes, and the lists name them.
        ensures own { IfOk result (λ undo. IsOf (noted attempt.now.writes) (task_of undo)) }
        ensures in_order { IsDistinct bytes_eq (keys_of attempt.now.writes)
            → IfOk result (λ undo. undo.works.entries ≡ works_in attempt.now.writes) }
        // What is said of the attempt and its client's own list licenses the rollback.
        ensures ready { (l : List Made) (atr : ℕ) → attempt.now.sent ≡ Some atr
            → IsAbortable attempt.now.id atr (noted attempt.now.writes) l
            → IfOk result (λ undo. IsReady (task_of undo) l) }
        ensures few { IfOk result (λ undo. length undo.works.entries ≤ length attempt.now.writes) }
        ensures stands { IfOk result (λ undo. StandsFor undo []) }
    {
        let atr = attempt.sent().unwrap();
        let lists = attempt.lists(alloc)?;
        let works = works_of(alloc, attempt)?;
        Ok(Undo {
            attempt: attempt.id(),
            atr,
            lists,
            works,
            phase: Phase::Aborting,
        })
    }

    /// The call to make now; none where it has ended.
    pub fn next(&self, alloc: Global) -> Result<Option<Step>, NoMemory>
        ensures step { IfOk result (λ step. step ≡ step_of self.now) }
        ensures fits { IfOk result (λ step. IfSome step (λ s. IsTrue (step_fits s))) }
    {
        match self.phase {
            Phase::Aborting => Ok(Some(Step::Abort {
                atr: self.atr,
                attempt: self.attempt,
                lists: self.lists.copy(alloc)?,
            })),
            Phase::Going { at } => match self.works.get_index(at) {
                Some((doc, Some(cas))) => unstick(alloc, doc, *cas),
                Some((doc, None)) => Ok(Some(Step::ReadDoc {
                    doc: doc.copy(alloc)?,
                })),
                None => Ok(Some(Step::DropEntry {
                    atr: self.atr,
                    attempt: self.attempt,
                    guarded: false,
                })),
            },
            Phase::Taking { at, cas } => match self.works.get_index(at) {
                Some((doc, _)) => unstick(alloc, doc, cas),
                None => Ok(None),
            },
            Phase::Ended { .. } => Ok(None),
        }
    }

    /// Takes in the answer to the call that `next` gave. It takes no memory.
    pub fn learn(&mut self, answer: Answer)
        requires asked { IsSome (step_of self.old) }
        requires fits { (s : Step) → step_of self.old ≡ Some s → IsTrue (fits s answer.reply) }
        ensures phase { self.new ≡ record self.old {
          phase = after (task_of self.old) self.old.phase answer.place answer.reply;
        } }
        ensures stands { (mine : List Made) (s : Step) → step_of self.old ≡ Some s
            → StandsFor self.old mine
            → StandsFor self.new (record { step = s; answer = answer } ∷ mine) }
        ensures fewer { calls_left self.new < calls_left self.old }
    {
        self.phase = self.after(&answer);
    }

    /// How it ended; none while it asks for a call.
    pub fn end(&self) -> Option<&UndoEnd>
        ensures { option_copied result ≡ end_of self.now }
    {
        match &self.phase {
            Phase::Ended { end } => Some(end),
            Phase::Aborting | Phase::Going { .. } | Phase::Taking { .. } => None,
        }
    }

    // The phase after the present one, once the call that it asks for was answered.
    fn after(&self, answer: &Answer) -> Phase
        requires { IsSome (step_of self.now) }
        ensures { result ≡ after (task_of self.now) self.now.phase answer.entry.now.place answer.entry.now.reply }
    {
        // The works are in memory, so the place after one of them is a number.
        let _count = self.works.len();
        match self.phase {
            Phase::Aborting => after_abort(answer.place, &answer.reply),
            Phase::Going { at } => match self.works.get_index(at) {
                None => after_drop(answer.place, &answer.reply),
                Some((_, Some(_))) => after_unstick(at, answer.place, &answer.reply),
                Some((_, None)) => {
                    after_reading(self.atr, self.attempt, at, answer.place, &answer.reply)
                }
            },
            Phase::Taking { at, .. } => after_unstick(at, answer.place, &answer.reply),
            Phase::Ended { end } => Phase::Ended { end },
        }
    }
}

// The call that takes the staging off a document, over this stamp.
fn unstick(alloc: Global, doc: &DocId, cas: u64) -> Result<Option<Step>, NoMemory>
    ensures { IfOk result (λ s. s ≡ Some (Step.Unstick doc.now cas)) }
{
    Ok(Some(Step::Unstick {
        doc: doc.copy(alloc)?,
        cas,
    }))
}

// The documents of the own writes of an attempt in their order, each with the stamp that is noted of
// it.
fn works_of(alloc: Global, attempt: &Attempt) -> Result<IndexMap<DocId, Option<u64>>, NoMemory>
    ensures copied { IfOk result (λ works. CopiesNotes (noted attempt.now.writes) works.entries) }
    ensures in_order { IsDistinct bytes_eq (keys_of attempt.now.writes) → IfOk result (λ works. works.entries ≡ works_in attempt.now.writes) }
    ensures few { IfOk result (λ works. length works.entries ≤ length attempt.now.writes) }
{
    let mut works = IndexMap::new(alloc);
    for at in 0..usize::MAX {
        let Some((doc, _)) = attempt.write_at(at) else {
            return Ok(works);
        };
        // By a look-up, since that is what the attempt has noted of the document.
        let stamp = stamp(attempt, doc);
        works.insert(doc.copy(alloc)?, stamp)?;
    }
    // No memory holds so many.
    Err(NoMemory)
}

// The stamp of the own write of a document, where there is one and it is known.
fn stamp(attempt: &Attempt, doc: &DocId) -> Option<u64>
    ensures { result ≡ stamp_of (noted attempt.now.writes doc.now) }
{
    attempt.own(doc)?.cas
}
