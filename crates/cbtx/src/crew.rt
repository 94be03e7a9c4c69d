//! The actors of a script.

ghost use Rattle.std.specs.Prelude.{◌≡◌, ◌+◌, ◌≤◌, ◌<◌, ◌^◌, All, IfOk, OnOk, length};
ghost use Rattle.cbt_expr.specs.declared.plans.TxnPlan.{TxnPlan};
ghost use Rattle.cbt_script.specs.Rules.{IsClient, IsScript, IsWithin};
ghost use Rattle.cbtx.specs.Adding.{AddsCleaners, AreClients};
ghost use Rattle.cbtx.specs.Crew.{CleansAs, IsCrew, IsSweep, TransactsAs, cleaner_terms};

use crate::workers::Worker;
use cbt_base::{Duplicate, Id, List, NoMemory, Text};
use cbt_expr::ClientPlan;
use cbt_lost::Cleaner;
use cbt_script::Script;
use cbt_txn::Client;
use std::alloc::Global;

/// The clients and behind them the cleaners of a script, before their first calls.
pub fn workers_of(alloc: Global, script: &Script) -> Result<List<Worker>, NoMemory>
    requires rules { IsScript script.now }
    ensures crew { IfOk result (λ workers. IsCrew script.now workers) }
{
    let mut workers = clients_of(alloc, script.clients.as_slice(), script.atrs)?;
    add_cleaners(alloc, &mut workers, script)?;
    Ok(workers)
}

// The clients of a script. They are numbered from 1.
fn clients_of(
    alloc: Global,
    clients: &[(Text, ClientPlan)],
    atrs: u16,
) -> Result<List<Worker>, NoMemory>
    requires plans { All IsClient clients.now }
    requires few { length clients.now ≤ 64 }
    requires atrs { IsWithin 1 1024 atrs }
    ensures clients { IfOk result (λ workers. AreClients atrs clients.now workers) }
    ensures all { IfOk result (λ workers. length workers ≡ length clients.now) }
{
    let mut workers = List::new(alloc);
    for k in 0..clients.len() {
        let client = client_of(alloc, k as u32 + 1, &clients[k].1, atrs)?;
        workers.push(client)?;
    }
    Ok(workers)
}

// The client with this number.
fn client_of(alloc: Global, number: u32, plan: &ClientPlan, atrs: u16) -> Result<Worker, NoMemory>
    requires number { 1 ≤ number }
    requires atrs { IsWithin 1 1024 atrs }
    requires few { length plan.now.txns < 2 ^ 16 }
    requires tries { All (λ (txn : TxnPlan). 1 ≤ txn.tries) plan.now.txns }
    ensures { IfOk result (λ worker. TransactsAs number atrs plan.now worker) }
{
    let plan = plan.copy(alloc)?;
    let client = Client::begin(alloc, number, plan, atrs)?;
    Ok(Worker::Transacts(client))
}

// Adds the cleaners of a script. They are numbered from 1 among themselves.
fn add_cleaners(alloc: Global, workers: &mut List<Worker>, script: &Script) -> Result<(), NoMemory>
    requires few { length script.now.cleaners ≤ 16 }
    ensures { OnOk result (AddsCleaners script.now (length script.now.cleaners) workers.old workers.new) }
{
    let cleaners = script.cleaners.as_slice();
    for k in 0..cleaners.len() {
        let cleaner = cleaner_of(alloc, k as u32 + 1, cleaners[k].1, script)?;
        workers.push(cleaner)?;
    }
    Ok(())
}

// The cleaner with this number.
fn cleaner_of(alloc: Global, number: u32, rounds: u32, script: &Script) -> Result<Worker, NoMemory>
    requires number { 1 ≤ number }
    ensures { IfOk result (λ worker. CleansAs (cleaner_terms script.now number) rounds worker) }
{
    let id = Id::cleaner(number);
    let cleaner = Cleaner::begin(alloc, id, rounds, script.atrs, script.lapse)?;
    Ok(Worker::Cleans(cleaner))
}

/// The sweep of a script, if it has one. It is numbered behind the cleaners.
pub fn sweep_of(alloc: Global, script: &Script) -> Result<List<Worker>, NoMemory>
    requires few { length script.now.cleaners ≤ 16 }
    ensures sweep { IfOk result (λ sweep. IsSweep script.now sweep) }
{
    let mut sweep = List::new(alloc);
    if script.sweep.is_some() {
        let id = Id::cleaner(script.cleaners.len() as u32 + 1);
        let cleaner = Cleaner::sweep(alloc, id, script.atrs)?;
        sweep.push(Worker::Cleans(cleaner))?;
    }
    Ok(sweep)
}
