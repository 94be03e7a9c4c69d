//! What a read of a document comes to.

use cbt_base::{Duplicate, NoMemory};
use cbt_book::Seen;
use std::alloc::Global;

/// How a read ended.
#[derive(Drop)]
pub enum GetEnd {
    Value { seen: Seen },
    /// The document changed hands at each of nine readings.
    Contended,
    /// The call at this place failed.
    CallFailed { place: u64 },
}

impl Duplicate for GetEnd {
    fn copy(&self, alloc: Global) -> Result<GetEnd, NoMemory> {
        match self {
            GetEnd::Value { seen } => Ok(GetEnd::Value {
                seen: seen.copy(alloc)?,
            }),
            GetEnd::Contended => Ok(GetEnd::Contended),
            GetEnd::CallFailed { place } => Ok(GetEnd::CallFailed { place: *place }),
        }
    }
}
