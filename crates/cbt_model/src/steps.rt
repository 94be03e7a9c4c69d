//! The calls of a node, and what it answers.
use crate::documents::Stage;
use crate::entries::{ClientRow, Entry, Lists};
use cbt_base::{DocId, Duplicate, Id, List, NoMemory};
use cbt_json::Json;
use std::alloc::Global;

/// What a staging expects of its document.
#[derive(Clone, Copy, Debug, PartialEq, Eq)]
pub enum Expect {
    /// Nothing stands at its id.
    New,
    /// It has this stamp.
    Cas(u64),
}

/// One call of a node. It touches one document, one entry, one transaction record or the client
/// record.
#[derive(Drop)]
pub enum Step {
    ReadDoc {
        doc: DocId,
    },
    /// Puts a write into a document, over the one that may wait there.
    Stage {
        doc: DocId,
        expect: Expect,
        stage: Stage,
    },
    /// Makes the body of a document the given one, and takes the waiting write away.
    Publish {
        doc: DocId,
        cas: u64,
        body: Json,
    },
    /// Leaves a tombstone.
    Delete {
        doc: DocId,
        cas: u64,
    },
    /// Takes the waiting write away.
    Unstick {
        doc: DocId,
        cas: u64,
    },
    ReadEntry {
        atr: u16,
        attempt: Id,
    },
    AddEntry {
        atr: u16,
        attempt: Id,
        exp: u64,
    },
    Commit {
        atr: u16,
        attempt: Id,
        lists: Lists,
    },
    Abort {
        atr: u16,
        attempt: Id,
        lists: Lists,
    },
    /// Removes an entry: a guarded drop only one that is pending.
    DropEntry {
        atr: u16,
        attempt: Id,
        guarded: bool,
    },
    ReadAtr {
        atr: u16,
    },
    ReadClients,
    /// Sets the row of `me`, and removes the rows of the others in `gone`.
    Beat {
        me: Id,
        expires: u64,
        num_atrs: u16,
        gone: List<Id>,
    },
}

/// What a node answers.
#[derive(Drop)]
pub enum Reply {
    Doc {
        cas: u64,
        body: Option<Json>,
        stage: Option<Stage>,
    },
    Absent,
    /// The step took effect with this stamp.
    Done {
        cas: u64,
    },
    /// The document has another stamp; 0 stands for no document.
    CasMismatch {
        have: u64,
    },
    Exists,
    Entry(Entry),
    NoEntry,
    /// The entry is not pending any more.
    Decided,
    /// The entries of a transaction record, rising by attempt.
    Entries(List<(Id, Entry)>),
    /// The rows of the client record, rising by id.
    Clients(List<(Id, ClientRow)>),
    /// The call was lost, or its answer was.
    Failed,
}

impl Duplicate for Expect {
    fn copy(&self, _alloc: Global) -> Result<Expect, NoMemory> {
        Ok(*self)
    }
}

impl Duplicate for Step {
    fn copy(&self, alloc: Global) -> Result<Step, NoMemory> {
        match self {
            Step::ReadDoc { doc } => Ok(Step::ReadDoc {
                doc: doc.copy(alloc)?,
            }),
            Step::Stage { doc, expect, stage } => {
                let doc = doc.copy(alloc)?;
                let stage = stage.copy(alloc)?;
                Ok(Step::Stage {
                    doc,
                    expect: *expect,
                    stage,
                })
            }
            Step::Publish { doc, cas, body } => {
                let doc = doc.copy(alloc)?;
                let body = body.copy(alloc)?;
                Ok(Step::Publish {
                    doc,
                    cas: *cas,
                    body,
                })
            }
            Step::Delete { doc, cas } => Ok(Step::Delete {
                doc: doc.copy(alloc)?,
                cas: *cas,
            }),
            Step::Unstick { doc, cas } => Ok(Step::Unstick {
                doc: doc.copy(alloc)?,
                cas: *cas,
            }),
            Step::ReadEntry { atr, attempt } => Ok(Step::ReadEntry {
                atr: *atr,
                attempt: *attempt,
            }),
            Step::AddEntry { atr, attempt, exp } => Ok(Step::AddEntry {
                atr: *atr,
                attempt: *attempt,
                exp: *exp,
            }),
            Step::Commit {
                atr,
                attempt,
                lists,
            } => Ok(Step::Commit {
                atr: *atr,
                attempt: *attempt,
                lists: lists.copy(alloc)?,
            }),
            Step::Abort {
                atr,
                attempt,
                lists,
            } => Ok(Step::Abort {
                atr: *atr,
                attempt: *attempt,
                lists: lists.copy(alloc)?,
            }),
            Step::DropEntry {
                atr,
                attempt,
                guarded,
            } => Ok(Step::DropEntry {
                atr: *atr,
                attempt: *attempt,
                guarded: *guarded,
            }),
            Step::ReadAtr { atr } => Ok(Step::ReadAtr { atr: *atr }),
            Step::ReadClients => Ok(Step::ReadClients),
            Step::Beat {
                me,
                expires,
                num_atrs,
                gone,
            } => {
                let gone = gone.copy(alloc)?;
                Ok(Step::Beat {
                    me: *me,
                    expires: *expires,
                    num_atrs: *num_atrs,
                    gone,
                })
            }
        }
    }
}

impl Duplicate for Reply {
    fn copy(&self, alloc: Global) -> Result<Reply, NoMemory> {
        match self {
            Reply::Doc { cas, body, stage } => {
                let body = body.copy(alloc)?;
                let stage = stage.copy(alloc)?;
                Ok(Reply::Doc {
                    cas: *cas,
                    body,
                    stage,
                })
            }
            Reply::Absent => Ok(Reply::Absent),
            Reply::Done { cas } => Ok(Reply::Done { cas: *cas }),
            Reply::CasMismatch { have } => Ok(Reply::CasMismatch { have: *have }),
            Reply::Exists => Ok(Reply::Exists),
            Reply::Entry(entry) => Ok(Reply::Entry(entry.copy(alloc)?)),
            Reply::NoEntry => Ok(Reply::NoEntry),
            Reply::Decided => Ok(Reply::Decided),
            Reply::Entries(entries) => Ok(Reply::Entries(entries.copy(alloc)?)),
            Reply::Clients(rows) => Ok(Reply::Clients(rows.copy(alloc)?)),
            Reply::Failed => Ok(Reply::Failed),
        }
    }
}
