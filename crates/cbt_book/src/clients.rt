use crate::operations::{OpLog, Span};
use cbt_base::{Duplicate, Id, List, NoMemory};
use std::alloc::Global;

/// How an attempt ended.
#[derive(Clone, Copy, Debug, PartialEq, Eq)]
pub enum AttemptEnd {
    /// The last own commit stands at this place; complete where its entry was dropped after it.
    Committed { place: u64, complete: bool },
    /// It wrote nothing.
    Empty,
    RolledBack,
    /// The commit at this place found no entry.
    EntryLost { place: u64 },
    /// The places of the commit that failed, and of the reading after it that did not settle it.
    Unknown { commit: u64, read: u64 },
    /// The call at this place of its rollback failed.
    Incomplete { place: u64 },
    Stopped,
}

/// One try of a transaction.
#[derive(Drop)]
pub struct AttemptLog {
    pub id: Id,
    pub span: Span,
    pub ops: List<OpLog>,
    /// The third commit failed too, and the entry was not committed.
    pub not_committed: bool,
    pub end: AttemptEnd,
}

/// Why a transaction failed by its own operations.
#[derive(Clone, Copy, Debug, PartialEq, Eq)]
pub enum Why {
    NotFound,
    Exists,
    NeedFalse,
    BadValue,
}

/// How a transaction ended.
#[derive(Clone, Copy, Debug, PartialEq, Eq)]
pub enum TxnEnd {
    Committed { complete: bool },
    Empty,
    RolledBack,
    Failed(Why),
    /// At this time, in milliseconds, it was past its expiry.
    Expired { now: u64 },
    TriesSpent,
    Unknown,
    CallFailed { place: u64 },
    Stopped,
}

/// A transaction that its client has come to.
#[derive(Drop)]
pub struct TxnLog {
    pub attempts: List<AttemptLog>,
    pub end: TxnEnd,
}

/// A client's transactions, and how many calls it made.
#[derive(Drop)]
pub struct ClientLog {
    pub txns: List<TxnLog>,
    pub calls: u64,
}

impl Duplicate for AttemptLog {
    fn copy(&self, alloc: Global) -> Result<AttemptLog, NoMemory> {
        let ops = self.ops.copy(alloc)?;
        Ok(AttemptLog {
            id: self.id,
            span: self.span,
            ops,
            not_committed: self.not_committed,
            end: self.end,
        })
    }
}

impl Duplicate for TxnLog {
    fn copy(&self, alloc: Global) -> Result<TxnLog, NoMemory> {
        let attempts = self.attempts.copy(alloc)?;
        Ok(TxnLog {
            attempts,
            end: self.end,
        })
    }
}

impl Duplicate for ClientLog {
    fn copy(&self, alloc: Global) -> Result<ClientLog, NoMemory> {
        let txns = self.txns.copy(alloc)?;
        Ok(ClientLog {
            txns,
            calls: self.calls,
        })
    }
}
