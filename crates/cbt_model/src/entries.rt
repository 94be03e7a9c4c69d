//! What a transaction record holds for an attempt, and the client record for a cleaner.
use cbt_base::{DocId, Duplicate, List, NoMemory};
use std::alloc::Global;

/// How far an attempt has come.
#[derive(Clone, Copy, Debug, PartialEq, Eq)]
pub enum EntryState {
    Pending,
    Committed,
    Aborted,
}

/// The documents that an attempt wrote, by what it did to them.
#[derive(Drop)]
pub struct Lists {
    pub ins: List<DocId>,
    pub rep: List<DocId>,
    pub rem: List<DocId>,
}

/// An attempt in its transaction record. A pending one has empty lists.
#[derive(Drop)]
pub struct Entry {
    pub state: EntryState,
    /// The stamp of the step that added it.
    pub start: u64,
    /// How long it may stay, in milliseconds.
    pub exp: u64,
    pub lists: Lists,
}

/// A cleaner in the client record.
#[derive(Clone, Copy, Debug, PartialEq, Eq)]
pub struct ClientRow {
    /// The stamp of its last beat.
    pub heartbeat: u64,
    /// How long the beat counts, in milliseconds.
    pub expires: u64,
    /// How many transaction records it shares in.
    pub num_atrs: u16,
}

impl Duplicate for Lists {
    fn copy(&self, alloc: Global) -> Result<Lists, NoMemory> {
        let ins = self.ins.copy(alloc)?;
        let rep = self.rep.copy(alloc)?;
        let rem = self.rem.copy(alloc)?;
        Ok(Lists { ins, rep, rem })
    }
}

impl Duplicate for Entry {
    fn copy(&self, alloc: Global) -> Result<Entry, NoMemory> {
        let lists = self.lists.copy(alloc)?;
        Ok(Entry {
            state: self.state,
            start: self.start,
            exp: self.exp,
            lists,
        })
    }
}

impl Duplicate for ClientRow {
    fn copy(&self, _alloc: Global) -> Result<ClientRow, NoMemory> {
        Ok(*self)
    }
}
