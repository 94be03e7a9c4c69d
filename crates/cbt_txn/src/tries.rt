//! One try of a transaction.

ghost use Rattle.std.specs.Prelude.{◌≡◌, ◌≢◌, ◌≤◌, ◌<◌, ◌+◌, ◌*◌, ◌^◌, ℕ, Bool, true, false, nat_lt, List, [], ◌∷◌, ◌++◌, length, None, Some, IsTrue, IsSome, IfOk, IfSome, OnOk, OnErr};
ghost use Rattle.cbt_core.specs.Walk.{AttemptTerms};
ghost use Rattle.cbt_model.specs.Fitting.{fits, step_fits};
ghost use Rattle.cbt_model.specs.declared.events.Made.{Made};
ghost use Rattle.cbt_model.specs.declared.steps.Step.{Step};
ghost use Rattle.cbt_book.specs.Numbers.{Identity};
ghost use Rattle.cbt_book.specs.OwnLists.{Descends};
ghost use Rattle.cbt_book.specs.Spans.{past_of};
ghost use Rattle.cbt_txn.specs.Bounds.{open_left, try_left};
ghost use Rattle.cbt_txn.specs.Closings.{end_in, log_of, IsNewTo, IsOf, TryFollows, TryHalts, TryMayGoOn};
ghost use Rattle.cbt_txn.specs.Deciding.{ended_by, finish_after, is_in_vain, is_kept, is_over, undo_after, undone, Closed, Commits, Finished, RollsBack};
ghost use Rattle.cbt_commit.specs.Phases as finish_phases;
ghost use Rattle.cbt_rollback.specs.Phases as undo_phases;
ghost use Rattle.cbt_txn.specs.Feeding.{first_with};
ghost use Rattle.cbt_txn.specs.Following.{Follows as OpsFollow, Halts};
ghost use Rattle.cbt_txn.specs.Licensing.{MayGoOn};
ghost use Rattle.cbt_txn.specs.Works.{step_of};
ghost use Rattle.cbt_txn.specs.Tries.{after_answer, after_last, after_rollback, outcome, step_now};

use crate::operations::{Operations, Work};
use cbt_attempt::Attempt;
use cbt_base::{Id, List, NoMemory};
use cbt_book::{AttemptEnd, AttemptLog, OpAnswer, OpLog, Span, TxnEnd, Why};
use cbt_commit::{Finish, FinishEnd};
use cbt_expr::TxnPlan;
use cbt_model::{Answer, Step};
use cbt_rollback::{Undo, UndoEnd};
use std::alloc::Global;
use std::mem;

/// One try of a transaction: its operations, and then its commit or its rollback. With n operations it
/// makes at most 25 n + 10 calls.
#[derive(Drop)]
pub struct Try {
    pub operations: Operations,
    /// The place of its first call, where it has made one.
    pub first: Option<u64>,
    /// One past the place of the client's newest call.
    pub past: u64,
    /// The third commit was in vain.
    pub not_committed: bool,
    pub closing: Closing,
}

/// What follows the operations.
#[derive(Drop)]
pub enum Closing {
    /// They go on.
    Open,
    Finish { finish: Finish },
    Undo { undo: Undo },
    Ended { end: AttemptEnd },
}

/// What follows a try that has ended.
#[derive(Clone, Copy, Debug, PartialEq, Eq)]
pub enum Outcome {
    /// Another one is due.
    Again,
    Ends { end: TxnEnd },
}

impl Try {
    /// A try under this identifier, up to its first call. The client's newest call so far stands before
    /// the place `past`.
    pub fn begin(
        alloc: Global,
        id: Id,
        atrs: u16,
        past: u64,
        plan: &TxnPlan,
    ) -> Result<Try, NoMemory>
        requires atrs { (1 ≤ atrs) × (atrs ≤ 1024) }
        ensures follows { (who : Identity) (t : AttemptTerms) (l0 : List Made) → t.plan ≡ plan.now → t.id ≡ id → t.atrs ≡ atrs → past ≡ past_of l0
            → Descends l0 → IsNewTo who id l0
            → IfOk result (λ it. TryFollows t it l0 []) }
        ensures licensed { (who : Identity) (l : List Made) → IsNewTo who id l → IfOk result (λ it. TryMayGoOn who it l) }
        ensures of { IfOk result (λ it. IsOf id atrs it) }
        ensures few { IfOk result (λ it. try_left plan.now.ops it ≤ 25 * length plan.now.ops + 10) }
    {
        let attempt = Attempt::begin(alloc, id, atrs, plan.hold);
        let operations = Operations::begin(alloc, attempt, past, &plan.ops)?;
        let closing = closed(alloc, plan.keep, &operations)?;
        Ok(Try {
            operations,
            first: None,
            past,
            not_committed: false,
            closing,
        })
    }

    /// The call to make now; none where it has ended.
    pub fn next(&self, alloc: Global) -> Result<Option<Step>, NoMemory>
        ensures step { IfOk result (λ step. step ≡ step_now self.now) }
        ensures fits { IfOk result (λ step. IfSome step (λ s. IsTrue (step_fits s))) }
    {
        match &self.closing {
            Closing::Open => self.operations.next(alloc),
            Closing::Finish { finish } => finish.next(alloc),
            Closing::Undo { undo } => undo.next(alloc),
            Closing::Ended { .. } => Ok(None),
        }
    }

    /// Takes in the answer to the call that `next` gave, which came back late or not, and goes on to the
    /// next call. Only operations care for the time.
    pub fn learn(
        &mut self,
        alloc: Global,
        plan: &TxnPlan,
        late: bool,
        answer: Answer,
    ) -> Result<(), NoMemory>
        requires atrs { (1 ≤ self.old.operations.attempt.atrs) × (self.old.operations.attempt.atrs ≤ 1024) }
        requires asked { IsSome (step_now self.old) }
        requires fits { (s : Step) → step_now self.old ≡ Some s → IsTrue (fits s answer.reply) }
        requires place { answer.place < 2 ^ 62 }
        ensures follows { (who : Identity) (t : AttemptTerms) (l0 mine : List Made) (s : Step) → t.plan ≡ plan.now → late ≡ nat_lt t.latest answer.now
            → step_now self.old ≡ Some s → Descends (record { step = s; answer = answer } ∷ mine ++ l0) → TryMayGoOn who self.old (mine ++ l0)
            → TryFollows t self.old l0 mine
            → OnOk result (TryFollows t self.new l0 (record { step = s; answer = answer } ∷ mine)) }
        // Where no memory was found, it may be told as one that was stopped.
        ensures halts { (who : Identity) (t : AttemptTerms) (l0 mine : List Made) (s : Step) → t.plan ≡ plan.now → late ≡ nat_lt t.latest answer.now
            → step_now self.old ≡ Some s → Descends (record { step = s; answer = answer } ∷ mine ++ l0) → TryMayGoOn who self.old (mine ++ l0)
            → TryFollows t self.old l0 mine
            → OnErr result (TryHalts t self.new l0 (record { step = s; answer = answer } ∷ mine)) }
        ensures licensed { (who : Identity) (l : List Made) (s : Step) → step_now self.old ≡ Some s → TryMayGoOn who self.old l
            → OnOk result (TryMayGoOn who self.new (record { step = s; answer = answer } ∷ l)) }
        ensures same { IsOf self.old.operations.attempt.id self.old.operations.attempt.atrs self.new }
        ensures cut { OnErr result (self.new.closing ≡ Closing.Open) }
        // So it ends, after so many calls at most.
        ensures fewer { OnOk result (try_left plan.now.ops self.new < try_left plan.now.ops self.old) }
    {
        self.mark(answer.place);
        match mem::replace(&mut self.closing, Closing::Open) {
            Closing::Open => self.learn_open(alloc, plan, late, answer),
            Closing::Finish { finish } => self.learn_finish(alloc, finish, answer),
            Closing::Undo { undo } => {
                self.closing = learn_undo(undo, answer);
                Ok(())
            }
            ended => {
                self.closing = ended;
                Ok(())
            }
        }
    }

    // A call was made at this place.
    fn mark(&mut self, place: u64)
        requires { place < 2 ^ 62 }
        ensures { self.new ≡ record self.old { first = first_with self.old.first place; past = place + 1 } }
    {
        if self.first.is_none() {
            self.first = Some(place);
        }
        self.past = place + 1;
    }

    // The operations take the answer in, and what follows them begins.
    fn learn_open(
        &mut self,
        alloc: Global,
        plan: &TxnPlan,
        late: bool,
        answer: Answer,
    ) -> Result<(), NoMemory>
        requires open { self.old.closing ≡ Closing.Open }
        requires atrs { (1 ≤ self.old.operations.attempt.atrs) × (self.old.operations.attempt.atrs ≤ 1024) }
        requires asked { IsSome (step_of self.old.operations.work) }
        requires fits { (s : Step) → step_of self.old.operations.work ≡ Some s → IsTrue (fits s answer.reply) }
        requires place { answer.place < 2 ^ 62 }
        ensures closed { OnOk result (Closed plan.now.keep self.new.operations self.new.closing) }
        ensures follows { (t : AttemptTerms) (l0 mine : List Made) (s : Step) → t.plan.ops ≡ plan.now.ops → late ≡ nat_lt t.latest answer.now
            → step_of self.old.operations.work ≡ Some s → Descends (record { step = s; answer = answer } ∷ mine ++ l0)
            → OpsFollow t self.old.operations l0 mine → OnOk result (OpsFollow t self.new.operations l0 (record { step = s; answer = answer } ∷ mine)) }
        ensures halts { (t : AttemptTerms) (l0 mine : List Made) (s : Step) → t.plan.ops ≡ plan.now.ops → late ≡ nat_lt t.latest answer.now
            → step_of self.old.operations.work ≡ Some s → Descends (record { step = s; answer = answer } ∷ mine ++ l0)
            → OpsFollow t self.old.operations l0 mine
            → OnErr result (Halts t self.new.operations.logs l0 (record { step = s; answer = answer } ∷ mine)) }
        ensures licensed { (who : Identity) (l : List Made) (s : Step) → step_of self.old.operations.work ≡ Some s → MayGoOn who self.old.operations l
            → OnOk result (MayGoOn who self.new.operations (record { step = s; answer = answer } ∷ l)) }
        ensures rest { self.new ≡ record self.old { operations = self.new.operations; closing = self.new.closing } }
        ensures open_still { OnErr result (self.new.closing ≡ Closing.Open) }
        ensures same { (self.new.operations.attempt.id ≡ self.old.operations.attempt.id) × (self.new.operations.attempt.atrs ≡ self.old.operations.attempt.atrs) }
        ensures fewer { OnOk result (open_left plan.now.ops self.new.operations < open_left plan.now.ops self.old.operations) }
    {
        self.operations.learn(alloc, &plan.ops, late, answer)?;
        self.closing = closed(alloc, plan.keep, &self.operations)?;
        Ok(())
    }

    // The commit takes the answer in, and goes on or is followed.
    fn learn_finish(
        &mut self,
        alloc: Global,
        mut finish: Finish,
        answer: Answer,
    ) -> Result<(), NoMemory>
        requires open { self.old.closing ≡ Closing.Open }
        requires asked { IsSome (finish_phases.step_of finish) }
        requires fits { (s : Step) → finish_phases.step_of finish ≡ Some s → IsTrue (fits s answer.reply) }
        ensures finished { OnOk result (Finished self.old.operations.attempt (finish_after finish answer.place answer.reply) self.new.closing) }
        ensures rest { self.new ≡ record self.old {
          not_committed = is_in_vain (finish_after finish answer.place answer.reply);
          closing = self.new.closing;
        } }
        ensures err { OnErr result ((is_in_vain (finish_after finish answer.place answer.reply) ≡ true) × (self.new.closing ≡ Closing.Open)) }
    {
        finish.learn(answer);
        self.not_committed = is_in_vain(&finish);
        self.closing = finished(alloc, &self.operations.attempt, finish)?;
        Ok(())
    }

    /// Its log: as it ended, or else as one that was stopped. It takes no memory.
    pub fn into_log(self) -> AttemptLog
        ensures { result ≡ log_of self }
    {
        let Try {
            operations,
            first,
            past,
            not_committed,
            closing,
        } = self;
        let Operations { attempt, logs, .. } = operations;
        AttemptLog {
            id: attempt.id(),
            span: Span {
                from: first.unwrap_or(past),
                to: past,
            },
            ops: logs,
            not_committed,
            end: told_end(&closing),
        }
    }

    /// What follows it; none while it goes on.
    pub fn outcome(&self) -> Option<Outcome>
        ensures { result ≡ outcome self.now }
    {
        let Closing::Ended { end } = &self.closing else {
            return None;
        };
        Some(match end {
            AttemptEnd::Committed { complete, .. } => ends(TxnEnd::Committed {
                complete: *complete,
            }),
            AttemptEnd::Empty => ends(TxnEnd::Empty),
            AttemptEnd::RolledBack => self.after_rollback(),
            AttemptEnd::EntryLost { .. } => Outcome::Again,
            AttemptEnd::Unknown { .. } => ends(TxnEnd::Unknown),
            AttemptEnd::Incomplete { place } => ends(TxnEnd::CallFailed { place: *place }),
            AttemptEnd::Stopped => ends(TxnEnd::Stopped),
        })
    }

    // What follows a rollback, by why the try was rolled back.
    fn after_rollback(&self) -> Outcome
        ensures { result ≡ after_rollback self.now.not_committed self.now.operations.work self.now.operations.logs }
    {
        if self.not_committed {
            return Outcome::Again;
        }
        match &self.operations.work {
            Work::Late { now } => ends(TxnEnd::Expired { now: *now }),
            Work::Refused => after_last(&self.operations.logs),
            _ => ends(TxnEnd::RolledBack),
        }
    }
}

// What follows the operations: where they go on no more, the commit or the rollback of the try.
fn closed(alloc: Global, keep: bool, operations: &Operations) -> Result<Closing, NoMemory>
    ensures { IfOk result (λ next. Closed keep operations.now next) }
{
    if !is_over(&operations.work) {
        return Ok(Closing::Open);
    }
    if is_kept(keep, &operations.work) {
        let next = committed(alloc, &operations.attempt)?;
        return Ok(next);
    }
    let next = rolled_back(alloc, &operations.attempt)?;
    Ok(next)
}

// Whether no operation goes on.
fn is_over(work: &Work) -> bool
    ensures { result ≡ is_over work.now }
{
    matches!(work, Work::Done | Work::Refused | Work::Late { .. })
}

// Whether what the operations wrote is to be committed: all were answered, and the plan keeps it.
fn is_kept(keep: bool, work: &Work) -> bool
    ensures { result ≡ is_kept keep work.now }
{
    match work {
        Work::Done => keep,
        _ => false,
    }
}

// What follows a commit: it goes on, or has ended, or was in vain and is rolled back. Only for a rollback it
// takes memory.
fn finished(alloc: Global, attempt: &Attempt, finish: Finish) -> Result<Closing, NoMemory>
    ensures ok { IfOk result (λ next. Finished attempt.now finish next) }
    ensures err { OnErr result (is_in_vain finish ≡ true) }
{
    let Some(end) = finish.end().copied() else {
        return Ok(Closing::Finish { finish });
    };
    if is_in_vain(&finish) {
        let next = rolled_back(alloc, attempt)?;
        return Ok(next);
    }
    Ok(Closing::Ended { end: ended_by(end) })
}

// Whether the third commit was in vain.
fn is_in_vain(finish: &Finish) -> bool
    ensures { result ≡ is_in_vain finish.now }
{
    matches!(finish.end(), Some(FinishEnd::NotCommitted { .. }))
}

// The commit of an attempt. One that has sent no entry wrote nothing.
fn committed(alloc: Global, attempt: &Attempt) -> Result<Closing, NoMemory>
    ensures { IfOk result (λ next. Commits attempt.now next) }
{
    if attempt.sent().is_none() {
        return Ok(Closing::Ended {
            end: AttemptEnd::Empty,
        });
    }
    let finish = Finish::begin(alloc, attempt)?;
    Ok(Closing::Finish { finish })
}

// The rollback of an attempt. One that has sent no entry has nothing to take back.
fn rolled_back(alloc: Global, attempt: &Attempt) -> Result<Closing, NoMemory>
    ensures { IfOk result (λ next. RollsBack attempt.now next) }
{
    if attempt.sent().is_none() {
        return Ok(Closing::Ended {
            end: AttemptEnd::RolledBack,
        });
    }
    let undo = Undo::begin(alloc, attempt)?;
    Ok(Closing::Undo { undo })
}

// How a commit has ended. One in vain is rolled back instead.
fn ended_by(end: FinishEnd) -> AttemptEnd
    ensures { result ≡ ended_by end }
{
    match end {
        FinishEnd::Committed { place, complete } => AttemptEnd::Committed { place, complete },
        FinishEnd::EntryLost { place } => AttemptEnd::EntryLost { place },
        FinishEnd::Unknown { commit, read } => AttemptEnd::Unknown { commit, read },
        FinishEnd::NotCommitted { .. } => AttemptEnd::Stopped,
    }
}

// The rollback takes the answer in, and goes on or has ended.
fn learn_undo(mut undo: Undo, answer: Answer) -> Closing
    requires asked { IsSome (undo_phases.step_of undo) }
    requires fits { (s : Step) → undo_phases.step_of undo ≡ Some s → IsTrue (fits s answer.reply) }
    ensures { result ≡ undone (undo_after undo answer.place answer.reply) }
{
    undo.learn(answer);
    undone(undo)
}

// The rollback goes on, or has ended.
fn undone(undo: Undo) -> Closing
    ensures { result ≡ undone undo }
{
    match undo.end().copied() {
        None => Closing::Undo { undo },
        Some(UndoEnd::RolledBack) => Closing::Ended {
            end: AttemptEnd::RolledBack,
        },
        Some(UndoEnd::Incomplete { place }) => Closing::Ended {
            end: AttemptEnd::Incomplete { place },
        },
    }
}

// What follows a try that was rolled back for the last of these answers.
fn after_last(logs: &List<OpLog>) -> Outcome
    ensures { result ≡ after_last logs.now }
{
    match logs.get(logs.len().saturating_sub(1)) {
        Some(log) => after_answer(&log.answer),
        None => ends(TxnEnd::RolledBack),
    }
}

// What follows a try that was rolled back for this answer of an operation.
fn after_answer(answer: &OpAnswer) -> Outcome
    ensures { result ≡ after_answer answer.now }
{
    match answer {
        OpAnswer::DocNotFound { .. } => ends(TxnEnd::Failed(Why::NotFound)),
        OpAnswer::DocExists { .. } => ends(TxnEnd::Failed(Why::Exists)),
        OpAnswer::NeedFalse => ends(TxnEnd::Failed(Why::NeedFalse)),
        OpAnswer::BadValue { .. } => ends(TxnEnd::Failed(Why::BadValue)),
        // Of the answers that are not good those are left after which another try is due.
        _ => Outcome::Again,
    }
}

fn ends(end: TxnEnd) -> Outcome
    ensures { result ≡ Outcome.Ends end }
{
    Outcome::Ends { end }
}

// How it has ended; else it is told as one that was stopped.
fn told_end(closing: &Closing) -> AttemptEnd
    ensures { result ≡ end_in closing.now }
{
    match closing {
        Closing::Ended { end } => *end,
        Closing::Open | Closing::Finish { .. } | Closing::Undo { .. } => AttemptEnd::Stopped,
    }
}
