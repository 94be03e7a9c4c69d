//! What cleaners keep of their rounds and passes.

ghost use Rattle.std.specs.Prelude.{◌≡◌};
ghost use Rattle.cbt_book.specs.Shares.{has_record};

use crate::operations::Span;
use cbt_base::{Duplicate, Id, List, NoMemory};
use std::alloc::Global;

/// How a pass over one transaction record ended.
#[derive(Drop)]
pub enum PassEnd {
    /// It treated these attempts, which had expired.
    Ok { covered: List<Id> },
    CallFailed { place: u64 },
}

/// A cleaner's pass over one transaction record.
#[derive(Drop)]
pub struct PassLog {
    pub atr: u16,
    pub span: Span,
    pub end: PassEnd,
}

/// Which transaction records fall to a cleaner: those whose number modulo `of` is `index`.
#[derive(Clone, Copy, Debug, PartialEq, Eq)]
pub struct Share {
    pub index: u64,
    pub of: u64,
}

impl Share {
    /// Whether this transaction record falls to the cleaner. None does where `of` is 0. It takes no memory.
    pub fn has(&self, n: u16) -> bool
        ensures { result ≡ has_record self.now n }
    {
        self.of != 0 && u64::from(n) % self.of == self.index
    }
}

/// A cleaner's round over its share.
#[derive(Drop)]
pub struct RoundLog {
    pub span: Span,
    /// None where the client record was not read or not written.
    pub share: Option<Share>,
    pub passes: List<PassLog>,
}

/// A cleaner's rounds, and how many calls it made.
#[derive(Drop)]
pub struct CleanerLog {
    pub id: Id,
    pub rounds: List<RoundLog>,
    pub stopped: bool,
    pub calls: u64,
}

impl Duplicate for PassEnd {
    fn copy(&self, alloc: Global) -> Result<PassEnd, NoMemory> {
        match self {
            PassEnd::Ok { covered } => {
                let covered = covered.copy(alloc)?;
                Ok(PassEnd::Ok { covered })
            }
            PassEnd::CallFailed { place } => Ok(PassEnd::CallFailed { place: *place }),
        }
    }
}

impl Duplicate for PassLog {
    fn copy(&self, alloc: Global) -> Result<PassLog, NoMemory> {
        let end = self.end.copy(alloc)?;
        Ok(PassLog {
            atr: self.atr,
            span: self.span,
            end,
        })
    }
}

impl Duplicate for RoundLog {
    fn copy(&self, alloc: Global) -> Result<RoundLog, NoMemory> {
        let passes = self.passes.copy(alloc)?;
        Ok(RoundLog {
            span: self.span,
            share: self.share,
            passes,
        })
    }
}

impl Duplicate for CleanerLog {
    fn copy(&self, alloc: Global) -> Result<CleanerLog, NoMemory> {
        let rounds = self.rounds.copy(alloc)?;
        Ok(CleanerLog {
            id: self.id,
            rounds,
            stopped: self.stopped,
            calls: self.calls,
        })
    }
}
