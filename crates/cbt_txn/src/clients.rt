//! A client: its transactions, one after another, and the log that it keeps of them.

ghost use Rattle.std.specs.Prelude.{◌≡◌, ◌≤◌, ◌<◌, ◌+◌, ◌^◌, ◌↔◌, suc, false, true, All, List, [], ◌∷◌, ◌++◌, length, slice_set, take, None, Some, IsSome, IsTrue, IfOk, OnOk, OnErr};
ghost use Rattle.cbt_book.specs.Numbers.{Identity};
ghost use Rattle.cbt_book.specs.OwnLists.{Descends};
ghost use Rattle.cbt_book.specs.Spans.{past_of};
ghost use Rattle.cbt_model.specs.Fitting.{fits};
ghost use Rattle.cbt_model.specs.declared.events.Made.{Made};
ghost use Rattle.cbt_model.specs.declared.steps.Step.{Step};
ghost use Rattle.cbt_core.specs.Clients.{FollowsPlan};
ghost use Rattle.cbt_core.specs.Stops.{WasStopped};
ghost use Rattle.cbt_txn.specs.Clients.{begun_left, calls_left, client_log_of, due_left, has_ended, most_of, none_asked, running_left, step_now, told_in, AreUnbegun, Goes, GoesOn, IsBetween, MayGoOn, Rests, StandsFor};
ghost use Rattle.cbt_txn.specs.Transactions.{txn_log_of, AreEarlier};

use crate::keeping::Terms;
use crate::origins::Origin;
use crate::transactions::Transaction;
use cbt_base::{List, NoMemory};
use cbt_book::{ClientLog, TxnEnd, TxnLog};
use cbt_expr::ClientPlan;
use cbt_model::{Actor, Answer, Step};
use std::alloc::Global;

/// A client. It is an actor over the machines of its transactions.
#[derive(Drop)]
pub struct Client {
    pub origin: Origin,
    /// A log a transaction of the plan; those that have not ended say that they were stopped.
    pub txns: List<TxnLog>,
    /// How many transactions have ended.
    pub at: usize,
    /// The transaction under way; none where all have ended.
    pub txn: Option<Transaction>,
    pub calls: u64,
    pub stopped: bool,
}

impl Client {
    /// The client with this number among the actors, from 1, up to its first call.
    pub fn begin(alloc: Global, actor: u32, plan: ClientPlan, atrs: u16) -> Result<Client, NoMemory>
        requires actor { 1 ≤ actor }
        requires atrs { (1 ≤ atrs) × (atrs ≤ 1024) }
        requires few { length plan.txns < 2 ^ 16 }
        requires tries { All (λ txn. 1 ≤ txn.tries) plan.txns }
        ensures stands { IfOk result (λ c. StandsFor c []) }
        ensures runs { IfOk result (λ c. c.stopped ≡ false) }
        ensures few { IfOk result (λ c. calls_left c ≤ most_of plan.txns) }
        ensures origin { IfOk result (λ c. (c.origin.actor ≡ actor) × (c.origin.plan ≡ plan) × (c.origin.atrs ≡ atrs)) }
    {
        let txns = match unbegun(alloc, plan.txns.len()) {
            Ok(txns) => txns,
            Err(refused) => {
                drop(plan);
                return Err(refused);
            }
        };
        let mut client = Client {
            origin: Origin { actor, plan, atrs },
            txns,
            at: 0,
            txn: None,
            calls: 0,
            stopped: false,
        };
        match client.advance(alloc, 0) {
            Ok(()) => Ok(client),
            Err(refused) => {
                drop(client);
                Err(refused)
            }
        }
    }

    // The transactions that are left begin, up to the first that makes a call. The client's newest call
    // so far stands before the place `past`.
    fn advance(&mut self, alloc: Global, past: u64) -> Result<(), NoMemory>
        requires idle { self.old.txn ≡ None }
        ensures follows { (l : List Made) → past ≡ past_of l → Descends l → AreEarlier self.old.origin.actor (suc self.old.at) 1 l → IsBetween self.old l
            → OnOk result (Goes self.new l) }
        ensures halts { (l : List Made) → past ≡ past_of l → Descends l → AreEarlier self.old.origin.actor (suc self.old.at) 1 l → IsBetween self.old l
            → OnErr result (Rests self.new l) }
        ensures licensed { (who : Identity) (l : List Made) → who.number ≡ self.old.origin.actor → AreEarlier self.old.origin.actor (suc self.old.at) 1 l
            → OnOk result (MayGoOn who self.new l) }
        ensures no_more { OnOk result (running_left self.new ≤ due_left self.old) }
        ensures rest { self.new ≡ record self.old { txns = self.new.txns; at = self.new.at; txn = self.new.txn } }
    {
        for _at in self.at..self.origin.plan.txns.len() {
            if !self.begin_next(alloc, past)? {
                return Ok(());
            }
        }
        Ok(())
    }

    // The next transaction begins. Whether the one behind it is to begin too: it is where this one has ended
    // without a call.
    fn begin_next(&mut self, alloc: Global, past: u64) -> Result<bool, NoMemory>
        requires left { self.old.at < length self.old.origin.plan.txns }
        requires idle { self.old.txn ≡ None }
        ensures follows { (l : List Made) → past ≡ past_of l → Descends l → AreEarlier self.old.origin.actor (suc self.old.at) 1 l → IsBetween self.old l
            → IfOk result (λ on. GoesOn on self.new l) }
        ensures licensed { (who : Identity) (l : List Made) → who.number ≡ self.old.origin.actor → AreEarlier self.old.origin.actor (suc self.old.at) 1 l
            → OnOk result (MayGoOn who self.new l) }
        ensures no_more { IfOk result (λ on. begun_left on self.new ≤ due_left self.old) }
        ensures more { IfOk result (λ on. on ≡ true → (self.new.at ≡ self.old.at + 1) × (self.new.txn ≡ None)) }
        ensures rest { self.new ≡ record self.old { txns = self.new.txns; at = self.new.at; txn = self.new.txn } }
        ensures err { OnErr result (self.new ≡ self.old) }
    {
        let terms = Terms {
            client: self.origin.actor,
            number: self.at as u16 + 1,
            atrs: self.origin.atrs,
        };
        let plan = &self.origin.plan.txns.as_slice()[self.at];
        let txn = Transaction::begin(alloc, terms, past, plan)?;
        if txn.end.is_none() {
            self.set_txn(txn);
            return Ok(false);
        }
        self.tell(txn);
        Ok(true)
    }

    // A transaction has ended.
    fn tell(&mut self, txn: Transaction)
        requires { self.old.at < length self.old.origin.plan.txns }
        ensures { self.new ≡ record self.old { txns = slice_set self.old.txns self.old.at (txn_log_of txn); at = self.old.at + 1 } }
    {
        set_log(&mut self.txns, self.at, txn.into_log());
        self.at += 1;
    }

    // The transaction under way takes the answer in; where it ends, the next ones begin.
    fn take_in(&mut self, alloc: Global, answer: Answer) -> Result<(), NoMemory>
        requires asked { IsSome (step_now self.old) }
        requires fits { (s : Step) → step_now self.old ≡ Some s → IsTrue (fits s answer.reply) }
        requires place { answer.place < 2 ^ 62 }
        ensures follows { (who : Identity) (l : List Made) (s : Step) → who.number ≡ self.old.origin.actor → step_now self.old ≡ Some s
            → Descends (record { step = s; answer = answer } ∷ l) → MayGoOn who self.old l → Goes self.old l
            → OnOk result (Goes self.new (record { step = s; answer = answer } ∷ l)) }
        ensures halts { (who : Identity) (l : List Made) (s : Step) → who.number ≡ self.old.origin.actor → step_now self.old ≡ Some s
            → Descends (record { step = s; answer = answer } ∷ l) → MayGoOn who self.old l → Goes self.old l
            → OnErr result (Rests self.new (record { step = s; answer = answer } ∷ l)) }
        ensures licensed { (who : Identity) (l : List Made) (s : Step) → who.number ≡ self.old.origin.actor → step_now self.old ≡ Some s
            → MayGoOn who self.old l → OnOk result (MayGoOn who self.new (record { step = s; answer = answer } ∷ l)) }
        ensures fewer { OnOk result (running_left self.new < running_left self.old) }
        ensures rest { self.new ≡ record self.old { txns = self.new.txns; at = self.new.at; txn = self.new.txn } }
    {
        let past = answer.place + 1;
        let Some(mut txn) = self.txn.take() else {
            unreachable!()
        };
        let Some(plan) = self.origin.plan.txns.get(self.at) else {
            unreachable!()
        };
        if let Err(refused) = txn.learn(alloc, plan, answer) {
            self.set_txn(txn);
            return Err(refused);
        }
        if txn.end.is_none() {
            self.set_txn(txn);
            return Ok(());
        }
        self.tell(txn);
        self.advance(alloc, past)
    }

    // This transaction is under way.
    fn set_txn(&mut self, txn: Transaction)
        ensures { self.new ≡ record self.old { txn = Some txn } }
    {
        self.txn = Some(txn);
    }

    /// Whether all its transactions have ended.
    pub fn has_ended(&self) -> bool
        ensures { result ≡ has_ended self.now }
    {
        self.at >= self.origin.plan.txns.len()
    }

    /// What it did. Where it was stopped, the last transaction says so. It takes no memory.
    pub fn into_log(self) -> ClientLog
        ensures log { result ≡ client_log_of self }
        ensures follows { (l : List Made) → StandsFor self l → Descends l → FollowsPlan self.origin.actor self.origin.atrs self.origin.plan l result }
        ensures calls { (l : List Made) → StandsFor self l → result.calls ≡ length l }
        // It says that it was stopped exactly where some transaction has not ended.
        ensures stopped { (l : List Made) → StandsFor self l → Descends l → WasStopped result.txns ↔ (has_ended self ≡ false) }
        // That is so only of a client that was stopped, or that goes on.
        ensures asks { (l : List Made) → StandsFor self l → Descends l → has_ended self ≡ false → step_now self ≡ None → self.stopped ≡ true }
    {
        let Client {
            origin,
            txns,
            at,
            txn,
            calls,
            ..
        } = self;
        drop(origin);
        ClientLog {
            txns: told(txns, at, txn),
            calls,
        }
    }
}

impl Actor for Client {
    ghost use Rattle.std.specs.Prelude.{refl};
    ghost use Rattle.std.proofs.Common.{◌∙◌, rules};

    ghost stands_for = { λ c l. StandsFor c l };

    ghost step_now = { λ c. step_now c };

    ghost is_stopped = { λ c. c.stopped };

    ghost calls_left = { λ c. calls_left c };

    ghost same_origin = { λ a b. a.origin ≡ b.origin };

    ghost stopped_as = { λ a b. b ≡ record a { stopped = true } };

    fn next(&self, alloc: Global) -> Result<Option<Step>, NoMemory> {
        if self.stopped {
            return Ok(None);
        }
        match (self.origin.plan.txns.get(self.at), &self.txn) {
            (Some(_), Some(txn)) => txn.next(alloc),
            _ => Ok(None),
        }
    }

    fn learn(&mut self, alloc: Global, answer: Answer) -> Result<(), NoMemory> {
        let taken = self.take_in(alloc, answer);
        self.calls = self.calls.saturating_add(1);
        if taken.is_ok() && self.calls < 1 << 62 {
            return Ok(());
        }
        self.stopped = true;
        Err(NoMemory)
    }

    fn calls(&self) -> u64 {
        self.calls
    }

    fn stop(&mut self) {
        self.stopped = true;
    }

    ghost at_end = { λ a none. none_asked (step_now a) (running_left a) none };

    ghost when_stopped = { Prim.search rules };

    ghost origin_itself = { λ a. refl };

    ghost origin_along = { λ a b c p q. p ∙ q };
}

// Logs of so many transactions that were not begun.
fn unbegun(alloc: Global, count: usize) -> Result<List<TxnLog>, NoMemory>
    ensures { IfOk result (λ logs. (length logs ≡ count) × AreUnbegun logs) }
{
    let mut logs = List::new(alloc);
    for _at in 0..count {
        logs.push(TxnLog {
            attempts: List::new(alloc),
            end: TxnEnd::Stopped,
        })?;
    }
    Ok(logs)
}

// The transaction at this place has this log.
fn set_log(txns: &mut List<TxnLog>, at: usize, log: TxnLog)
    ensures { txns.new ≡ slice_set txns.old at log }
{
    if at < txns.len() {
        txns.set(at, log);
        return;
    }
    drop(log);
}

// The logs of the transactions that have ended, and of the one behind them.
fn told(mut txns: List<TxnLog>, at: usize, txn: Option<Transaction>) -> List<TxnLog>
    ensures { result ≡ take (at + 1) (told_in txns at txn) }
{
    if let Some(txn) = txn {
        set_log(&mut txns, at, txn.into_log());
    }
    if at < txns.len() {
        txns.truncate(at + 1);
    }
    txns
}
