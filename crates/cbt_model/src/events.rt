//! Histories: events and their fates, answers, marks, and what a driver is told to do.
ghost use Rattle.std.specs.Prelude.{◌≡◌, [], OnOk, OnErr};
ghost use Rattle.cbt_model.specs.Faults.{fault_at, with_fault};

use crate::states::State;
use crate::steps::{Reply, Step};
use cbt_base::{Duplicate, List, Map, NoMemory};
use std::alloc::Global;

/// What became of a call.
#[derive(Clone, Copy, Debug, PartialEq, Eq)]
pub enum Fate {
    Plain,
    /// It did not reach the node.
    Lost,
    /// It reached the node, and its answer did not come back.
    Late,
}

/// One call of a node in its history.
#[derive(Drop)]
pub struct Event {
    /// The number of the actor that called, from 1.
    pub actor: u32,
    pub step: Step,
    pub fate: Fate,
    /// The reading of the clock, in milliseconds.
    pub reading: u64,
}

/// What a caller is told.
#[derive(Drop)]
pub struct Answer {
    /// The event's place in the history, from 0. It is for logs alone.
    pub place: u64,
    /// The milliseconds of the node's clock after the event.
    pub now: u64,
    pub reply: Reply,
}

/// A step of an actor with its answer.
#[derive(Drop)]
pub struct Made {
    pub step: Step,
    pub answer: Answer,
}

/// The clock was moved ahead.
#[derive(Clone, Copy, Debug, PartialEq, Eq)]
pub struct Mark {
    /// How many events stood before.
    pub place: u64,
    /// By how many milliseconds.
    pub ms: u64,
}

/// What a node keeps.
#[derive(Drop)]
pub struct Kept {
    pub opening: State,
    pub history: List<Event>,
    pub marks: List<Mark>,
}

/// What a driver is to do next.
#[derive(Clone, Copy, Debug, PartialEq, Eq)]
pub enum Item {
    /// Up to `k` calls of an actor.
    Calls { actor: u32, k: u64 },
    /// All calls of an actor, until it ends or is stopped.
    All { actor: u32 },
    /// The clock moves ahead.
    Ahead { ms: u64 },
}

/// One call of an actor is to fail.
#[derive(Clone, Copy, Debug, PartialEq, Eq)]
pub struct Fault {
    pub actor: u32,
    /// The number of the call among the actor's calls, from 1.
    pub call: u64,
    pub fate: Fate,
}

/// The calls that are to fail.
#[derive(Drop)]
pub struct Faults {
    /// By the actor's number, and then by the number of the call among its calls, from 1.
    pub fates: Map<(u32, u64), Fate>,
}

impl Faults {
    /// No faults, which take no memory.
    pub fn new(alloc: Global) -> Faults
        ensures { result.fates ≡ [] }
    {
        Faults {
            fates: Map::new(alloc),
        }
    }

    /// Adds a fault. Of two for the same call of the same actor the first counts.
    pub fn add(&mut self, fault: Fault) -> Result<(), NoMemory>
        ensures added { OnOk result (self.new ≡ with_fault self.old fault) }
        ensures refused { OnErr result (self.new ≡ self.old) }
    {
        let key = (fault.actor, fault.call);
        if !self.fates.contains_key(&key) {
            self.fates.insert(key, fault.fate)?;
        }
        Ok(())
    }

    /// The fate that is named for a call of an actor, if one is. It takes no memory.
    pub fn get(&self, actor: u32, call: u64) -> Option<Fate>
        ensures { result ≡ fault_at self.now actor call }
    {
        self.fates.get(&(actor, call)).copied()
    }
}

impl Duplicate for Fate {
    fn copy(&self, _alloc: Global) -> Result<Fate, NoMemory> {
        Ok(*self)
    }
}

impl Duplicate for Event {
    fn copy(&self, alloc: Global) -> Result<Event, NoMemory> {
        let step = self.step.copy(alloc)?;
        Ok(Event {
            actor: self.actor,
            step,
            fate: self.fate,
            reading: self.reading,
        })
    }
}

impl Duplicate for Answer {
    fn copy(&self, alloc: Global) -> Result<Answer, NoMemory> {
        let reply = self.reply.copy(alloc)?;
        Ok(Answer {
            place: self.place,
            now: self.now,
            reply,
        })
    }
}

impl Duplicate for Made {
    fn copy(&self, alloc: Global) -> Result<Made, NoMemory> {
        let step = self.step.copy(alloc)?;
        let answer = self.answer.copy(alloc)?;
        Ok(Made { step, answer })
    }
}

impl Duplicate for Mark {
    fn copy(&self, _alloc: Global) -> Result<Mark, NoMemory> {
        Ok(*self)
    }
}

impl Duplicate for Kept {
    fn copy(&self, alloc: Global) -> Result<Kept, NoMemory> {
        let opening = self.opening.copy(alloc)?;
        let history = self.history.copy(alloc)?;
        let marks = self.marks.copy(alloc)?;
        Ok(Kept {
            opening,
            history,
            marks,
        })
    }
}

impl Duplicate for Item {
    fn copy(&self, _alloc: Global) -> Result<Item, NoMemory> {
        Ok(*self)
    }
}

impl Duplicate for Faults {
    fn copy(&self, alloc: Global) -> Result<Faults, NoMemory> {
        let fates = self.fates.copy(alloc)?;
        Ok(Faults { fates })
    }
}
