//! What a run is given, made of a script and copied.

use anyhow::Result;
use cbt_base::{Duplicate, List, NoMemory};
use cbt_core::Case;
use cbt_script::Script;
use std::alloc::Global;

/// What a copy of the case of a script holds: its documents, faults, stops, plans with their
/// transactions, actors and rounds.
pub fn copied(alloc: Global, script: &Script) -> Result<String> {
    let case = case_of(alloc, script)?.copy(alloc)?;
    let documents = case.opening.docs.len();
    let faults = case.faults.fates.len();
    let actors = case.actors;
    let mut told = format!(in alloc; "{documents} documents, {faults} faults, {actors} actors")?;
    for (actor, call) in case.stops.iter() {
        write!(told, ", {actor} stops at {call}")?;
    }
    for plan in case.plans.iter() {
        let txns = plan.txns.len();
        write!(told, ", {txns} transactions")?;
    }
    for rounds in case.rounds.iter() {
        write!(told, ", {rounds} rounds")?;
    }
    Ok(told)
}

fn case_of(alloc: Global, script: &Script) -> Result<Case, NoMemory> {
    let opening = script.opening(alloc)?;
    let faults = script.faults.copy(alloc)?;
    let stops = script.stops.copy(alloc)?;
    let mut actors: u32 = 0;
    let mut plans = List::new(alloc);
    for (_, plan) in script.clients.iter() {
        plans.push(plan.copy(alloc)?)?;
        actors = actors.saturating_add(1);
    }
    let mut rounds = List::new(alloc);
    for (_, count) in script.cleaners.iter() {
        rounds.push(*count)?;
        actors = actors.saturating_add(1);
    }
    Ok(Case {
        opening,
        line: script.line,
        faults,
        stops,
        plans,
        actors,
        atrs: script.atrs,
        lapse: script.lapse,
        rounds,
        sweep: script.sweep,
    })
}
