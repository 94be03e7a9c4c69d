//! The clients of a script, as far as they were read.

ghost use Rattle.std.specs.Prelude.{◌≡◌, IfOk, OnOk};
ghost use Rattle.cbt_script.specs.Causes.{Steps};
ghost use Rattle.cbt_script.specs.Clients.{no_clients, with_client, is_inside, begin_txn, terms_field, end_txn, add_operation, with_operation, bound_by, open_terms, last_done};

use crate::cause::{Cause, LineFault};
use crate::fields::{end, option, require};
use crate::keywords::Operation;
use crate::limits::{MAX_OPS, MAX_TIME, MAX_TRIED, MAX_TRIES, MAX_TXNS};
use crate::operations::operation;
use cbt_base::{Duplicate, List, Map, NoMemory, Text};
use cbt_expr::{ClientPlan, Op, TxnPlan};
use std::alloc::Global;
use std::mem;

/// Under what a transaction runs: its expiry and hold in milliseconds, and its tries.
#[derive(Clone, Copy)]
pub(crate) struct Terms {
    pub expiry: u64,
    pub hold: u64,
    pub tries: u32,
}

/// The clients that were given.
#[derive(Drop)]
pub(crate) struct Clients {
    /// Those before the last.
    pub done: List<(Text, ClientPlan)>,
    /// The last, where there is one, and its transactions.
    pub last: Option<Text>,
    pub txns: List<TxnPlan>,
    /// The transaction under way, where there is one, with its operations and the names that its gets
    /// have bound.
    pub under_way: Option<Terms>,
    pub ops: List<Op>,
    pub bound: Map<Text, ()>,
    /// Operations times tries, summed over all transactions.
    pub tried: u64,
}

impl Clients {
    pub(crate) fn new(alloc: Global) -> Clients
        ensures { result ≡ no_clients }
    {
        Clients {
            done: List::new(alloc),
            last: None,
            txns: List::new(alloc),
            under_way: None,
            ops: List::new(alloc),
            bound: Map::new(alloc),
            tried: 0,
        }
    }

    /// Whether a transaction is under way.
    pub(crate) fn is_inside(&self) -> bool
        ensures { result ≡ is_inside self.now }
    {
        self.under_way.is_some()
    }

    /// Takes a further client, which has no transactions yet.
    pub(crate) fn take_client(&mut self, alloc: Global, name: Text) -> Result<(), NoMemory>
        ensures { OnOk result (self.new ≡ with_client name self.old) }
    {
        let txns = mem::replace(&mut self.txns, List::new(alloc));
        if let Some(last) = self.last.take() {
            self.done.push((last, ClientPlan { txns }))?;
        }
        self.last = Some(name);
        Ok(())
    }

    /// All clients, with the last.
    pub(crate) fn into_list(self) -> Result<List<(Text, ClientPlan)>, NoMemory>
        ensures { IfOk result (λ list. list ≡ last_done self.last self.txns self.done) }
    {
        let Clients {
            mut done,
            last,
            txns,
            under_way: _,
            ops: _,
            bound: _,
            tried: _,
        } = self;
        if let Some(last) = last {
            done.push((last, ClientPlan { txns }))?;
        }
        Ok(done)
    }

    /// Begins a transaction of the last client, with the script's expiry and tries where it names none.
    #[tactic(auto, unfolding(crate::specs::Clients::begin_txn))]
    pub(crate) fn begin(
        &mut self,
        alloc: Global,
        expiry: u64,
        tries: u32,
        rest: &str,
    ) -> Result<(), LineFault>
        ensures { Steps result self.new (begin_txn expiry tries self.old rest.now) }
    {
        require(self.last.is_some(), Cause::Word)?;
        let terms = read_terms(expiry, tries, rest)?;
        require(self.txns.len() < MAX_TXNS, Cause::Limit)?;
        self.under_way = Some(terms);
        self.ops = List::new(alloc);
        self.bound = Map::new(alloc);
        Ok(())
    }

    /// Takes an operation of the transaction under way.
    #[tactic(auto, unfolding(crate::specs::Clients::add_operation))]
    pub(crate) fn take_operation(
        &mut self,
        alloc: Global,
        which: Operation,
        rest: &str,
    ) -> Result<(), LineFault>
        ensures { Steps result self.new (add_operation which self.old rest.now) }
    {
        let terms = self.terms()?;
        let op = operation(alloc, which, &self.bound, rest)?;
        self.add(alloc, terms.tries, op)
    }

    // Adds an operation of a transaction with so many tries.
    fn add(&mut self, alloc: Global, tries: u32, op: Op) -> Result<(), LineFault>
        ensures { Steps result self.new (with_operation tries op self.old) }
    {
        let tried = self.tried.saturating_add(u64::from(tries));
        if self.ops.len() >= MAX_OPS || tried > MAX_TRIED {
            drop(op);
            return Err(LineFault::Refused(Cause::Limit));
        }
        if let Err(refused) = bind(alloc, &mut self.bound, &op) {
            drop(op);
            return Err(LineFault::from(refused));
        }
        self.ops.push(op)?;
        self.tried = tried;
        Ok(())
    }

    /// Ends the transaction under way, by a commit or a rollback of its own.
    #[tactic(auto, unfolding(crate::specs::Clients::end_txn))]
    pub(crate) fn end(&mut self, alloc: Global, keep: bool, rest: &str) -> Result<(), LineFault>
        ensures { Steps result self.new (end_txn keep self.old rest.now) }
    {
        let terms = self.terms()?;
        end(rest)?;
        let ops = mem::replace(&mut self.ops, List::new(alloc));
        self.txns.push(TxnPlan {
            ops,
            expiry: terms.expiry,
            hold: terms.hold,
            tries: terms.tries,
            keep,
        })?;
        self.under_way = None;
        Ok(())
    }

    // The terms of the transaction under way.
    fn terms(&self) -> Result<Terms, Cause>
        ensures { result ≡ open_terms self.now }
    {
        self.under_way.ok_or(Cause::Word)
    }
}

// The terms of a transaction, with the script's expiry and tries where it names none.
#[tactic(auto, unfolding(crate::specs::Clients::terms_field))]
fn read_terms(expiry: u64, tries: u32, rest: &str) -> Result<Terms, Cause>
    ensures { result ≡ terms_field expiry tries rest.now }
{
    let (expiry, rest) = option(rest, "expiry", MAX_TIME, expiry)?;
    let (hold, rest) = option(rest, "hold", expiry, expiry)?;
    let (tries, rest) = option(rest, "tries", MAX_TRIES, u64::from(tries))?;
    end(rest)?;
    Ok(Terms {
        expiry,
        hold,
        tries: tries as u32,
    })
}

// Binds the name of a get.
fn bind(alloc: Global, bound: &mut Map<Text, ()>, op: &Op) -> Result<(), NoMemory>
    ensures { OnOk result (bound.new ≡ bound_by op.now bound.old) }
{
    match op {
        Op::Get { name, .. } => bound.insert(name.copy(alloc)?, ()),
        _ => Ok(()),
    }
}
