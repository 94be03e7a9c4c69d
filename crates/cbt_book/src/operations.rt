use cbt_base::{Duplicate, Id, NoMemory};
use cbt_json::Json;
use std::alloc::Global;

/// Places of a history: from the first call to one past the last. Where there was no call, both are
/// one past the actor's last place before, or 0.
#[derive(Clone, Copy, Debug, PartialEq, Eq)]
pub struct Span {
    pub from: u64,
    pub to: u64,
}

/// When an answer was right: by the attempt's own write, or at the moment of this place.
#[derive(Clone, Copy, Debug, PartialEq, Eq)]
pub enum When {
    Own,
    At(u64),
}

/// What an operation was answered.
#[derive(Drop)]
pub enum OpAnswer {
    /// What a get found, or that there is nothing.
    Value { value: Option<Json>, when: When },
    /// The write was staged by the call at this place, over a reading of that moment.
    Staged { place: u64, base: When },
    /// The own insert was taken back by the call at this place.
    Unstaged { place: u64 },
    DocExists { when: When },
    DocNotFound { when: When },
    /// Another attempt's entry stood for longer than the write waits.
    Blocked { by: Id },
    /// Another actor changed the document between the reading and the write.
    Moved,
    /// The document changed hands at each of nine readings.
    Contended,
    CallFailed { place: u64 },
    /// The condition holds.
    Holds,
    NeedFalse,
    /// A part of the expression has no value, or, as part 0, the whole is no fit body.
    BadValue { part: u32 },
}

/// An operation that was answered; `op` counts from 1.
#[derive(Drop)]
pub struct OpLog {
    pub op: u32,
    pub span: Span,
    pub answer: OpAnswer,
}

impl Duplicate for OpAnswer {
    fn copy(&self, alloc: Global) -> Result<OpAnswer, NoMemory> {
        match self {
            OpAnswer::Value { value, when } => {
                let value = value.copy(alloc)?;
                Ok(OpAnswer::Value { value, when: *when })
            }
            OpAnswer::Staged { place, base } => Ok(OpAnswer::Staged {
                place: *place,
                base: *base,
            }),
            OpAnswer::Unstaged { place } => Ok(OpAnswer::Unstaged { place: *place }),
            OpAnswer::DocExists { when } => Ok(OpAnswer::DocExists { when: *when }),
            OpAnswer::DocNotFound { when } => Ok(OpAnswer::DocNotFound { when: *when }),
            OpAnswer::Blocked { by } => Ok(OpAnswer::Blocked { by: *by }),
            OpAnswer::Moved => Ok(OpAnswer::Moved),
            OpAnswer::Contended => Ok(OpAnswer::Contended),
            OpAnswer::CallFailed { place } => Ok(OpAnswer::CallFailed { place: *place }),
            OpAnswer::Holds => Ok(OpAnswer::Holds),
            OpAnswer::NeedFalse => Ok(OpAnswer::NeedFalse),
            OpAnswer::BadValue { part } => Ok(OpAnswer::BadValue { part: *part }),
        }
    }
}

impl Duplicate for OpLog {
    fn copy(&self, alloc: Global) -> Result<OpLog, NoMemory> {
        let answer = self.answer.copy(alloc)?;
        Ok(OpLog {
            op: self.op,
            span: self.span,
            answer,
        })
    }
}
