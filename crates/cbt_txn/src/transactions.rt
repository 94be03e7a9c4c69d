//! A transaction: its tries, one after another.

ghost use Rattle.std.specs.Prelude.{◌≡◌, ◌+◌, ◌<◌, ◌≤◌, ◌^◌, true, false, nat_lt, List, [], ◌∷◌, ◌++◌, length, None, Some, IsTrue, IsSome, IfOk, IfSome, OnOk, OnErr};
ghost use Rattle.std.specs.Option.{option_copied};
ghost use Rattle.cbt_base.specs.Ids.{attempt_number};
ghost use Rattle.cbt_core.specs.Transactions.{TxnTerms};
ghost use Rattle.cbt_model.specs.Fitting.{fits, step_fits};
ghost use Rattle.cbt_model.specs.declared.events.Made.{Made};
ghost use Rattle.cbt_model.specs.declared.steps.Step.{Step};
ghost use Rattle.cbt_book.specs.Numbers.{Identity};
ghost use Rattle.cbt_book.specs.OwnLists.{Descends};
ghost use Rattle.cbt_book.specs.Spans.{past_of};
ghost use Rattle.cbt_txn.specs.Closings.{IsOf, TryMayGoOn};
ghost use Rattle.cbt_txn.specs.Transactions.{end_without_try, is_past, is_retried, txn_log_of, with_last, AreEarlier, IsMadeUnder, Tells, Tries, TxnMayGoOn, TxnStands};
ghost use Rattle.cbt_txn.specs.Tries.{outcome, step_now};
ghost use Rattle.cbt_txn.specs.TxnBounds.{txn_left, txn_most};

use crate::keeping::{Terms, Trying};
use crate::tries::{Outcome, Try};
use cbt_base::{Id, List, NoMemory};
use cbt_book::{AttemptEnd, AttemptLog, Span, TxnEnd, TxnLog};
use cbt_expr::TxnPlan;
use cbt_model::{Answer, Step};
use std::alloc::Global;
use std::mem;

/// A transaction that its client has come to.
#[derive(Drop)]
pub struct Transaction {
    pub terms: Terms,
    /// A log a try; the last is told once its try has ended.
    pub attempts: List<AttemptLog>,
    /// The try under way, or the last one.
    pub trying: Trying,
    /// The time of the first answer, where it has made a call.
    pub start: Option<u64>,
    /// The time of the newest answer.
    pub newest: u64,
    /// How it ended; none while it asks for a call.
    pub end: Option<TxnEnd>,
}

impl Transaction {
    /// A transaction up to its first call. The client's newest call so far stands before the place
    /// `past`.
    pub fn begin(
        alloc: Global,
        terms: Terms,
        past: u64,
        plan: &TxnPlan,
    ) -> Result<Transaction, NoMemory>
        requires tries { 1 ≤ plan.now.tries }
        ensures follows { (who : Identity) (x : TxnTerms) (before : List Made) → IsMadeUnder x terms → x.plan ≡ plan.now → who.number ≡ terms.client
            → past ≡ past_of before → Descends before → AreEarlier terms.client terms.number 1 before
            → IfOk result (λ txn. TxnStands x txn before []) }
        ensures licensed { (who : Identity) (l : List Made) → who.number ≡ terms.client → AreEarlier terms.client terms.number 1 l
            → IfOk result (λ txn. TxnMayGoOn who txn l) }
        ensures terms { IfOk result (λ txn. txn.terms ≡ terms) }
        ensures few { IfOk result (λ txn. txn_left plan.now txn ≤ txn_most plan.now) }
    {
        let id = Id::attempt(terms.client, terms.number, 1);
        let attempts = first_log(alloc, id, past)?;
        let it = Try::begin(alloc, id, terms.atrs, past, plan)?;
        let mut txn = Transaction {
            terms,
            attempts,
            trying: Trying { it },
            start: None,
            newest: 0,
            end: None,
        };
        txn.go_on(alloc, plan)?;
        Ok(txn)
    }

    /// The call to make now; none where it has ended.
    pub fn next(&self, alloc: Global) -> Result<Option<Step>, NoMemory>
        ensures step { IfOk result (λ step. step ≡ step_now self.now.trying.it) }
        ensures fits { IfOk result (λ step. IfSome step (λ s. IsTrue (step_fits s))) }
    {
        self.trying.it.next(alloc)
    }

    /// Takes in the answer to the call that `next` gave, and goes on to the next call.
    pub fn learn(&mut self, alloc: Global, plan: &TxnPlan, answer: Answer) -> Result<(), NoMemory>
        requires asked { IsSome (step_now self.old.trying.it) }
        requires fits { (s : Step) → step_now self.old.trying.it ≡ Some s → IsTrue (fits s answer.reply) }
        requires place { answer.place < 2 ^ 62 }
        ensures follows { (who : Identity) (x : TxnTerms) (before mine : List Made) (s : Step) → IsMadeUnder x self.old.terms → x.plan ≡ plan.now
            → step_now self.old.trying.it ≡ Some s → Descends (record { step = s; answer = answer } ∷ mine ++ before)
            → TxnMayGoOn who self.old (mine ++ before) → Tries x self.old before mine → self.old.end ≡ None
            → OnOk result (TxnStands x self.new before (record { step = s; answer = answer } ∷ mine)) }
        // Where no memory was found, it is told as one that was stopped.
        ensures halts { (who : Identity) (x : TxnTerms) (before mine : List Made) (s : Step) → IsMadeUnder x self.old.terms → x.plan ≡ plan.now
            → step_now self.old.trying.it ≡ Some s → Descends (record { step = s; answer = answer } ∷ mine ++ before)
            → TxnMayGoOn who self.old (mine ++ before) → Tries x self.old before mine → self.old.end ≡ None
            → OnErr result (Tells x self.new before (record { step = s; answer = answer } ∷ mine)) }
        ensures licensed { (who : Identity) (l : List Made) (s : Step) → step_now self.old.trying.it ≡ Some s → TxnMayGoOn who self.old l
            → OnOk result (TxnMayGoOn who self.new (record { step = s; answer = answer } ∷ l)) }
        ensures terms { self.new.terms ≡ self.old.terms }
        ensures unended { OnErr result (self.new.end ≡ self.old.end) }
        ensures fewer { OnOk result (txn_left plan.now self.new < txn_left plan.now self.old) }
    {
        let now = answer.now;
        let start = self.start.unwrap_or(now);
        self.start = Some(start);
        self.newest = now;
        let late = is_late(start, plan.expiry, now);
        self.trying.it.learn(alloc, plan, late, answer)?;
        self.go_on(alloc, plan)
    }

    // Further tries begin, where they are due, up to the first that makes a call; or the transaction ends.
    fn go_on(&mut self, alloc: Global, plan: &TxnPlan) -> Result<(), NoMemory>
        ensures follows { (who : Identity) (x : TxnTerms) (before mine : List Made) → IsMadeUnder x self.old.terms → x.plan ≡ plan.now
            → Descends (mine ++ before) → TxnMayGoOn who self.old (mine ++ before) → Tries x self.old before mine → self.old.end ≡ None
            → OnOk result (TxnStands x self.new before mine) }
        ensures halts { (who : Identity) (x : TxnTerms) (before mine : List Made) → IsMadeUnder x self.old.terms → x.plan ≡ plan.now
            → Descends (mine ++ before) → TxnMayGoOn who self.old (mine ++ before) → Tries x self.old before mine → self.old.end ≡ None
            → OnErr result (Tells x self.new before mine) }
        ensures licensed { (who : Identity) (l : List Made) → TxnMayGoOn who self.old l → OnOk result (TxnMayGoOn who self.new l) }
        ensures terms { self.new.terms ≡ self.old.terms }
        ensures unended { OnErr result (self.new.end ≡ self.old.end) }
        ensures no_more { OnOk result (txn_left plan.now self.new ≤ txn_left plan.now self.old) }
    {
        for _ in self.attempts.len()..plan.tries as usize {
            if !self.is_retried() {
                self.set_end(self.end_without_try());
                return Ok(());
            }
            if self.is_past(plan.expiry) {
                self.set_end(Some(TxnEnd::Expired { now: self.newest }));
                return Ok(());
            }
            self.try_again(alloc, plan)?;
        }
        self.set_end(self.end_without_try());
        Ok(())
    }

    // It ends so, or goes on.
    fn set_end(&mut self, end: Option<TxnEnd>)
        ensures { self.new ≡ record self.old { end = end } }
    {
        self.end = end;
    }

    // Whether another try is due.
    fn is_retried(&self) -> bool
        ensures { result ≡ is_retried (outcome self.now.trying.it) }
    {
        matches!(self.trying.it.outcome(), Some(Outcome::Again))
    }

    // How it ends where no further try is made; none while a try goes on.
    fn end_without_try(&self) -> Option<TxnEnd>
        ensures { result ≡ end_without_try (outcome self.now.trying.it) }
    {
        match self.trying.it.outcome() {
            None => None,
            Some(Outcome::Ends { end }) => Some(end),
            Some(Outcome::Again) => Some(TxnEnd::TriesSpent),
        }
    }

    // Whether the newest answer came after the transaction's time.
    fn is_past(&self, expiry: u64) -> bool
        ensures { result ≡ is_past self.now expiry }
    {
        match self.start {
            Some(start) => is_late(start, expiry, self.newest),
            None => false,
        }
    }

    // The try has ended, and a further one begins.
    fn try_again(&mut self, alloc: Global, plan: &TxnPlan) -> Result<(), NoMemory>
        requires left { length self.old.attempts < plan.now.tries }
        requires small { length self.old.attempts + 1 < 2 ^ 32 }
        ensures follows { (who : Identity) (x : TxnTerms) (before mine : List Made) → IsMadeUnder x self.old.terms → x.plan ≡ plan.now
            → Descends (mine ++ before) → TxnMayGoOn who self.old (mine ++ before) → Tries x self.old before mine → is_retried (outcome self.old.trying.it) ≡ true
            → is_past self.old plan.now.expiry ≡ false → OnOk result (Tries x self.new before mine) }
        ensures licensed { (who : Identity) (l : List Made) → TxnMayGoOn who self.old l → OnOk result (TxnMayGoOn who self.new l) }
        ensures no_more { OnOk result (txn_left plan.now self.new ≤ txn_left plan.now self.old) }
        ensures longer { OnOk result (length self.new.attempts ≡ length self.old.attempts + 1) }
        ensures rest { OnOk result (self.new ≡ record self.old { attempts = self.new.attempts; trying = self.new.trying }) }
        ensures err { OnErr result (self.new ≡ self.old) }
    {
        let made = self.attempts.len();
        let id = Id::attempt(self.terms.client, self.terms.number, made as u32 + 1);
        let it = Try::begin(alloc, id, self.terms.atrs, self.trying.it.past, plan)?;
        self.attempts.push(untold(alloc, id, self.trying.it.past))?;
        let ended = mem::replace(&mut self.trying, Trying { it });
        self.attempts
            .set(made.saturating_sub(1), ended.it.into_log());
        Ok(())
    }

    /// Its log: as it ended, or else as one that was stopped. It takes no memory.
    pub fn into_log(self) -> TxnLog
        ensures { result ≡ txn_log_of self }
    {
        let Transaction {
            mut attempts,
            trying,
            end,
            ..
        } = self;
        set_last(&mut attempts, trying.it.into_log());
        TxnLog {
            attempts,
            end: end.unwrap_or(TxnEnd::Stopped),
        }
    }
}

// Whether an answer at the time `now` came after the time of a transaction that began at `start`.
fn is_late(start: u64, expiry: u64, now: u64) -> bool
    ensures { result ≡ nat_lt (start + expiry) now }
{
    now.saturating_sub(start) > expiry
}

// The last of these logs is told anew.
fn set_last(logs: &mut List<AttemptLog>, log: AttemptLog)
    ensures { logs.new ≡ with_last logs.old log }
{
    let made = logs.len();
    if made > 0 {
        logs.set(made - 1, log);
    }
}

// The log of a try that is not told yet.
fn untold(alloc: Global, id: Id, past: u64) -> AttemptLog {
    AttemptLog {
        id,
        span: Span {
            from: past,
            to: past,
        },
        ops: List::new(alloc),
        not_committed: false,
        end: AttemptEnd::Stopped,
    }
}

// The logs of a transaction that begins.
fn first_log(alloc: Global, id: Id, past: u64) -> Result<List<AttemptLog>, NoMemory>
    ensures { IfOk result (λ logs. (log : AttemptLog) × (logs ≡ log ∷ [])) }
{
    let mut logs = List::new(alloc);
    logs.push(untold(alloc, id, past))?;
    Ok(logs)
}
