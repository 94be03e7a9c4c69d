use crate::cleaners::CleanerLog;
use crate::clients::ClientLog;
use cbt_base::{Duplicate, List, NoMemory};
use cbt_model::Kept;
use std::alloc::Global;

/// What a run leaves: its history, and the log of each client and each cleaner. A sweep is the last
/// cleaner.
#[derive(Drop)]
pub struct Book {
    pub kept: Kept,
    pub clients: List<ClientLog>,
    pub cleaners: List<CleanerLog>,
}

impl Duplicate for Book {
    fn copy(&self, alloc: Global) -> Result<Book, NoMemory> {
        let kept = self.kept.copy(alloc)?;
        let clients = self.clients.copy(alloc)?;
        let cleaners = self.cleaners.copy(alloc)?;
        Ok(Book {
            kept,
            clients,
            cleaners,
        })
    }
}
