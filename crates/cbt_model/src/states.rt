//! The node's state.
use crate::documents::DocState;
use crate::entries::{ClientRow, Entry};
use cbt_base::{DocId, Duplicate, Id, Map, NoMemory};
use std::alloc::Global;

/// What a node holds: documents, the entries of its transaction records, and the client record.
#[derive(Drop)]
pub struct State {
    /// The highest stamp so far.
    pub last: u64,
    pub docs: Map<DocId, DocState>,
    /// By the number of the transaction record, and then by the attempt.
    pub entries: Map<(u16, Id), Entry>,
    pub clients: Map<Id, ClientRow>,
}

impl Duplicate for State {
    fn copy(&self, alloc: Global) -> Result<State, NoMemory> {
        let docs = self.docs.copy(alloc)?;
        let entries = self.entries.copy(alloc)?;
        let clients = self.clients.copy(alloc)?;
        Ok(State {
            last: self.last,
            docs,
            entries,
            clients,
        })
    }
}
