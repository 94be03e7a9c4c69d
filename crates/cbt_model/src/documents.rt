//! What stands at a document's id.
use cbt_base::{Duplicate, Id, NoMemory};
use cbt_json::Json;
use std::alloc::Global;

/// What a write does to a document.
#[derive(Clone, Copy, Debug, PartialEq, Eq)]
pub enum OpKind {
    Insert,
    Replace,
    Remove,
}

/// A write that waits in a document until its attempt is decided.
#[derive(Drop)]
pub struct Stage {
    pub attempt: Id,
    /// The number of the transaction record that holds the attempt's entry.
    pub atr: u16,
    pub kind: OpKind,
    /// What the document is to hold: none exactly for a remove.
    pub content: Option<Json>,
}

/// A document, or the tombstone of one.
#[derive(Drop)]
pub struct DocState {
    /// The stamp of the step that last changed it.
    pub cas: u64,
    /// None in a tombstone.
    pub body: Option<Json>,
    /// An object without the name `txn`.
    pub attrs: Json,
    pub stage: Option<Stage>,
}

impl Duplicate for Stage {
    fn copy(&self, alloc: Global) -> Result<Stage, NoMemory> {
        let content = self.content.copy(alloc)?;
        Ok(Stage {
            attempt: self.attempt,
            atr: self.atr,
            kind: self.kind,
            content,
        })
    }
}

impl Duplicate for DocState {
    fn copy(&self, alloc: Global) -> Result<DocState, NoMemory> {
        let body = self.body.copy(alloc)?;
        let attrs = self.attrs.copy(alloc)?;
        let stage = self.stage.copy(alloc)?;
        Ok(DocState {
            cas: self.cas,
            body,
            attrs,
            stage,
        })
    }
}
