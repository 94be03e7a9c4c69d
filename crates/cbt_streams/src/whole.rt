//! Whole streams: all input up to a limit, and all of an output.
ghost use Rattle.std.specs.Prelude.{◌≡◌, ℕ, ◌-◌, ◌^◌, ◌<◌, ◌≤◌, ◌↔◌, ◌⊎◌, length, IfOk, OnOk, OnErr, IsErrOf};
ghost use Rattle.std.specs.Io.KnownBytes.{Appends};
ghost use Rattle.cbt_streams.specs.Causes.{Rose};
ghost use Rattle.cbt_streams.specs.Streams.{ReadWhole, ReadUpTo, ReadPast, WrotePart};
ghost use Rattle.cbt_streams.specs.declared.whole.ReadFault.TheVariants as fault;

use crate::sink::{Sink, WriteFailed};
use crate::source::{ReadFailed, Source};
use cbt_base::{List, NoMemory};
use std::alloc::Global;
use std::error::Error;
use std::fmt;

/// The largest number of bytes that one read asks for.
const PIECE: usize = 4096;

/// Why an input was not read to its end.
#[derive(Clone, Copy, Debug, PartialEq, Eq)]
pub enum ReadFault {
    NoMemory,
    /// A read failed.
    Failed,
    /// There are more bytes than the limit.
    TooLong,
}

impl fmt::Display for ReadFault {
    fn fmt<W: fmt::Write>(&self, f: &mut fmt::Formatter<W>) -> fmt::Result {
        match self {
            ReadFault::NoMemory => NoMemory.fmt(f),
            ReadFault::Failed => ReadFailed.fmt(f),
            ReadFault::TooLong => f.write_str("the input is too long"),
        }
    }
}

impl Error for ReadFault {}

impl From<NoMemory> for ReadFault {
    ghost from_gives = { λ _ e. e ≡ fault.NoMemory };

    fn from(_refused: NoMemory) -> ReadFault {
        ReadFault::NoMemory
    }
}

impl From<ReadFailed> for ReadFault {
    ghost from_gives = { λ _ e. e ≡ fault.Failed };

    fn from(_failed: ReadFailed) -> ReadFault {
        ReadFault::Failed
    }
}

/// Reads a source to its end. It never takes more than `limit` + 1 bytes, the last of which only
/// to learn that there are too many.
pub fn read_all<S: Source>(alloc: Global, src: &mut S, limit: usize) -> Result<List<u8>, ReadFault>
    ensures whole { IfOk result (λ bytes. ReadWhole (S.left src.old) (S.left src.new) bytes) }
    ensures within { IfOk result (λ bytes. length bytes ≤ limit) }
    ensures later { S.faults src.old ≤ S.faults src.new }

    // When each fault comes, and what was taken by then.
    ensures failed { IsErrOf result ReadFault.Failed → Rose (S.faults src.old) (S.faults src.new) }
    ensures failed_after { IsErrOf result ReadFault.Failed
        → ReadUpTo (S.left src.old) (S.left src.new) limit }
    ensures refused_after { IsErrOf result ReadFault.NoMemory
        → ReadUpTo (S.left src.old) (S.left src.new) limit }
    ensures long { IsErrOf result ReadFault.TooLong
        → ReadPast (S.left src.old) (S.left src.new) limit }
{
    let mut bytes = List::new(alloc);
    let mut piece = [0; PIECE];
    loop {
        let room = (limit - bytes.len()).saturating_add(1).min(PIECE);
        let count = src.read(&mut piece[..room])?;
        if count == 0 {
            return Ok(bytes);
        }
        if count > limit - bytes.len() {
            return Err(ReadFault::TooLong);
        }
        bytes.extend_from_slice(&piece[..count])?;
    }
}

/// Writes all the bytes to a sink. It takes no memory.
pub fn write_all<K: Sink>(out: &mut K, bytes: &[u8]) -> Result<(), WriteFailed>
    ensures whole { OnOk result (Appends (K.taken out.old) (K.taken out.new) bytes.now) }
    ensures part { OnErr result (WrotePart (K.taken out.old) (K.taken out.new) bytes.now) }
    ensures later { K.faults out.old ≤ K.faults out.new }
    ensures failed { OnErr result (Rose (K.faults out.old) (K.faults out.new)) }
{
    let mut rest = bytes;
    while !rest.is_empty() {
        let count = out.write(rest)?;
        rest = rest.split_at(count).1;
    }
    Ok(())
}

/// A law: a count of 64 bits rose exactly where it is larger than before, or stands at its end.
pub fn rose_is_larger_or_at_the_end()
    ensures { (before now : ℕ) → now < 2 ^ 64
        → (Rose before now ↔ ((before < now) ⊎ (now ≡ 2 ^ 64 - 1))) }
{}
