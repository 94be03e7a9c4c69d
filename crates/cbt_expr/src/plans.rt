use crate::expressions::{Cond, Expr};
use cbt_base::{DocId, Duplicate, List, NoMemory, Text};
use std::alloc::Global;

/// One operation of a transaction.
#[derive(Drop)]
pub enum Op {
    /// Binds a name to what the document resolves to.
    Get { doc: DocId, name: Text },
    Insert { doc: DocId, value: Expr },
    Replace { doc: DocId, value: Expr },
    Remove { doc: DocId },
    /// Goes on only where the condition holds.
    Need { cond: Cond },
}

/// What a transaction does, in this order, and how long and how often it is tried.
#[derive(Drop)]
pub struct TxnPlan {
    pub ops: List<Op>,
    /// After so many milliseconds no further try begins.
    pub expiry: u64,
    /// For so many milliseconds no cleaner takes the entry of an attempt.
    pub hold: u64,
    /// How many attempts there may be.
    pub tries: u32,
    /// Whether it ends with a commit, and not with a rollback of its own.
    pub keep: bool,
}

/// The transactions of a client, one after another.
#[derive(Drop)]
pub struct ClientPlan {
    pub txns: List<TxnPlan>,
}

impl Duplicate for Op {
    fn copy(&self, alloc: Global) -> Result<Op, NoMemory> {
        match self {
            Op::Get { doc, name } => {
                let doc = doc.copy(alloc)?;
                let name = name.copy(alloc)?;
                Ok(Op::Get { doc, name })
            }
            Op::Insert { doc, value } => {
                let doc = doc.copy(alloc)?;
                let value = value.copy(alloc)?;
                Ok(Op::Insert { doc, value })
            }
            Op::Replace { doc, value } => {
                let doc = doc.copy(alloc)?;
                let value = value.copy(alloc)?;
                Ok(Op::Replace { doc, value })
            }
            Op::Remove { doc } => {
                let doc = doc.copy(alloc)?;
                Ok(Op::Remove { doc })
            }
            Op::Need { cond } => {
                let cond = cond.copy(alloc)?;
                Ok(Op::Need { cond })
            }
        }
    }
}

impl Duplicate for TxnPlan {
    fn copy(&self, alloc: Global) -> Result<TxnPlan, NoMemory> {
        let ops = self.ops.copy(alloc)?;
        Ok(TxnPlan {
            ops,
            expiry: self.expiry,
            hold: self.hold,
            tries: self.tries,
            keep: self.keep,
        })
    }
}

impl Duplicate for ClientPlan {
    fn copy(&self, alloc: Global) -> Result<ClientPlan, NoMemory> {
        let txns = self.txns.copy(alloc)?;
        Ok(ClientPlan { txns })
    }
}
