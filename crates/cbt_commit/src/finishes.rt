//! The machine that commits one attempt.

ghost use Rattle.std.specs.Prelude.{◌≡◌, ◌<◌, ◌≤◌, [], ◌∷◌, List, length, Some, None, IsTrue, IsSome, IfOk, IfSome};
ghost use Rattle.std.specs.Option.{option_copied};
ghost use Rattle.cbt_model.specs.Fitting.{fits, step_fits};
ghost use Rattle.cbt_model.specs.declared.events.Made.{Made};
ghost use Rattle.cbt_model.specs.declared.steps.Step.{Step};
ghost use Rattle.cbt_attempt.specs.OwnWrites.{lists_of, noted};
ghost use Rattle.cbt_commit.specs.Phases.{after, calls_left, end_of, step_of, task_of};
ghost use Rattle.cbt_commit.specs.Ready.{copied, GoesWell, IsOf, IsReady};
ghost use Rattle.cbt_commit.specs.Standing.{StandsFor};

use crate::phases::{FinishEnd, Phase, after_commit, after_drop, after_reading, after_unstage};
use crate::works::{Work, works_of};
use cbt_attempt::Attempt;
use cbt_base::{DocId, Duplicate, Id, NoMemory};
use cbt_model::{Answer, Lists, Step};
use indexmap::IndexMap;
use std::alloc::Global;

// A commit in doubt is sent so often again.
const MOST_AGAIN: u8 = 2;

/// The commit of one attempt. It asks for a call, learns the answer, and so on until it has ended.
///
/// It commits the entry, publishes the own writes one after the other, and drops the entry. With n own
/// writes it makes at most n + 7 calls.
#[derive(Drop)]
pub struct Finish {
    pub attempt: Id,
    /// The transaction record of its entry.
    pub atr: u16,
    /// The documents of its own writes, by kind.
    pub lists: Lists,
    /// What was staged of these documents, in the order of the own writes.
    pub works: IndexMap<DocId, Work>,
    pub phase: Phase,
}

impl Finish {
    /// The commit of this attempt, which has sent its entry. Its own writes are copied, but for those whose
    /// stamps are not known: there are none while all goes well. It is an error where there is no memory for
    /// that.
    pub fn begin(alloc: Global, attempt: &Attempt) -> Result<Finish, NoMemory>
        requires sent { IsSome attempt.now.sent }
        ensures attempt { IfOk result (λ finish. finish.attempt ≡ attempt.now.id) }
        ensures atr { IfOk result (λ finish. Some finish.atr ≡ attempt.now.sent) }
        ensures lists { IfOk result (λ finish. finish.lists ≡ lists_of attempt.now.writes) }
        ensures works { IfOk result (λ finish. finish.works.entries ≡ copied attempt.now.writes) }
        ensures few { IfOk result (λ finish. length finish.works.entries ≤ length attempt.now.writes) }
        ensures phase { IfOk result (λ finish. finish.phase ≡ Phase.Sending 2) }
        // The works are the own writes whose stamps are known, and the lists name all.
        ensures own { IfOk result (λ finish. IsOf (noted attempt.now.writes) (task_of finish)) }
        ensures stands { IfOk result (λ finish. StandsFor finish []) }
        ensures ready { IfOk result (λ finish. (l : List Made)
            → GoesWell (noted attempt.now.writes) finish.atr finish.attempt l → IsReady (task_of finish) l) }
    {
        let atr = attempt.sent().unwrap();
        let lists = attempt.lists(alloc)?;
        let works = works_of(alloc, attempt)?;
        Ok(Finish {
            attempt: attempt.id(),
            atr,
            lists,
            works,
            phase: Phase::Sending { left: MOST_AGAIN },
        })
    }

    /// The call to make now; none where it has ended. It is an error where there is no memory for the call,
    /// and may then be asked again.
    pub fn next(&self, alloc: Global) -> Result<Option<Step>, NoMemory>
        ensures step { IfOk result (λ step. step ≡ step_of self.now) }
        ensures fits { IfOk result (λ step. IfSome step (λ s. IsTrue (step_fits s))) }
    {
        match self.phase {
            Phase::Sending { .. } => Ok(Some(Step::Commit {
                atr: self.atr,
                attempt: self.attempt,
                lists: self.lists.copy(alloc)?,
            })),
            Phase::Reading { .. } => Ok(Some(Step::ReadEntry {
                atr: self.atr,
                attempt: self.attempt,
            })),
            Phase::Going { at, .. } => match self.works.get_index(at) {
                Some((doc, work)) => Ok(Some(work.unstage(alloc, doc)?)),
                None => Ok(Some(Step::DropEntry {
                    atr: self.atr,
                    attempt: self.attempt,
                    guarded: false,
                })),
            },
            Phase::Ended { .. } => Ok(None),
        }
    }

    /// Takes in the answer to the call that `next` gave. It takes no memory.
    pub fn learn(&mut self, answer: Answer)
        requires asked { IsSome (step_of self.old) }
        requires fits { (s : Step) → step_of self.old ≡ Some s → IsTrue (fits s answer.reply) }
        ensures phase { self.new ≡ record self.old {
          phase = after (task_of self.old) self.old.phase answer.place answer.reply;
        } }
        ensures stands { (mine : List Made) (s : Step) → step_of self.old ≡ Some s
            → StandsFor self.old mine
            → StandsFor self.new (record { step = s; answer = answer } ∷ mine) }
        ensures fewer { calls_left self.new < calls_left self.old }
    {
        self.phase = self.after(&answer);
    }

    /// How it ended; none while it asks for a call.
    pub fn end(&self) -> Option<&FinishEnd>
        ensures { option_copied result ≡ end_of self.now }
    {
        match &self.phase {
            Phase::Ended { end } => Some(end),
            Phase::Sending { .. } | Phase::Reading { .. } | Phase::Going { .. } => None,
        }
    }

    // The phase after the present one, once the call that it asks for was answered.
    fn after(&self, answer: &Answer) -> Phase
        ensures { result ≡ after (task_of self.now) self.now.phase answer.entry.now.place answer.entry.now.reply }
    {
        // The works are in memory, so the place after one of them is a number.
        let _count = self.works.len();
        match self.phase {
            Phase::Sending { left } => after_commit(left, answer.place, &answer.reply),
            Phase::Reading { left, commit } => {
                after_reading(left, commit, answer.place, &answer.reply)
            }
            Phase::Going { commit, at } => match self.works.get_index(at) {
                Some(_) => after_unstage(commit, at, &answer.reply),
                None => after_drop(commit, &answer.reply),
            },
            Phase::Ended { end } => Phase::Ended { end },
        }
    }
}
