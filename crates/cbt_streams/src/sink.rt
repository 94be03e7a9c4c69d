//! Where the program's output goes.
ghost use Rattle.std.specs.Prelude.{◌≡◌, ℕ, ◌+◌, ◌<◌, ◌≤◌, ◌++◌, Option, Some, min, length, take, Contains, IsErr, IfOk, OnOk, OnErr};
ghost use mathlib.Core.List.{List as Seq};
ghost use Rattle.std.specs.Io.KnownBytes.{Appends, Keeps};
ghost use Rattle.cbt_base.specs.Clock.{held};
ghost use Rattle.cbt_streams.specs.Causes.{Rose};

use cbt_base::{Duplicate, List, NoMemory};
use std::alloc::Global;
use std::error::Error;
use std::fmt;
use std::io::Write;

/// A write that failed. The count of the sink's faults says why: it rose.
#[derive(Clone, Copy, Debug, PartialEq, Eq)]
pub struct WriteFailed;

impl fmt::Display for WriteFailed {
    fn fmt<W: fmt::Write>(&self, f: &mut fmt::Formatter<W>) -> fmt::Result {
        f.write_str("the output could not be written")
    }
}

impl Error for WriteFailed {}

/// A stream of output bytes.
pub trait Sink {
    /// The bytes taken so far, where it tells them.
    ghost taken: { Self → Option (Seq ℕ) };
    /// How many faults there were, held at 2^64 - 1.
    ghost faults: { Self → ℕ };

    /// Takes the front of `piece`, at least one byte, and answers how many. A write that fails
    /// takes none.
    fn write(&mut self, piece: &[u8]) -> Result<usize, WriteFailed>
        requires { 0 < length piece.now }
        ensures some { IfOk result (λ k. 0 < k) }
        ensures within { IfOk result (λ k. k ≤ length piece.now) }
        ensures takes { IfOk result (λ k.
            Appends (taken self.old) (taken self.new) (take k piece.now)) }
        ensures keeps { OnErr result (Keeps (taken self.old) (taken self.new)) }
        ensures later { faults self.old ≤ faults self.new }
        ensures failed { OnErr result (Rose (faults self.old) (faults self.new)) };
}

/// Bytes collected in memory, in pieces. A growth that it cannot make counts as a fault.
#[derive(Debug, Drop)]
pub struct MemSink {
    /// The bytes taken so far.
    pub bytes: List<u8>,
    /// The largest number of bytes that a call takes, at least 1.
    pub chunk: usize,
    /// The numbers of the calls that fail, from 1.
    pub fails: List<u64>,
    /// The number of calls so far, held at `u64::MAX`.
    pub calls: u64,
    /// The number of failed calls so far, held at `u64::MAX`.
    pub faults: u64,
    ghost some: { 0 < chunk },
}

impl MemSink {
    /// A sink that adds to `bytes`, at most `chunk` of them per call.
    pub fn new(bytes: List<u8>, chunk: usize, fails: List<u64>) -> MemSink
        requires { 0 < chunk }
        ensures bytes { result.bytes ≡ bytes }
        ensures chunk { result.chunk ≡ chunk }
        ensures fails { result.fails ≡ fails }
        ensures calls { result.calls ≡ 0 }
        ensures faults { result.faults ≡ 0 }
    {
        MemSink {
            bytes,
            chunk,
            fails,
            calls: 0,
            faults: 0,
        }
    }
}

impl Duplicate for MemSink {
    fn copy(&self, alloc: Global) -> Result<MemSink, NoMemory> {
        Ok(MemSink {
            bytes: List::from_slice(alloc, self.bytes.as_slice())?,
            chunk: self.chunk,
            fails: self.fails.copy(alloc)?,
            calls: self.calls,
            faults: self.faults,
        })
    }
}

impl Sink for MemSink {
    ghost taken = { λ s. Some s.bytes };

    ghost faults = { λ s. s.faults };

    /// Beside the calls listed in `fails`, one fails where there is no memory for its bytes.
    fn write(&mut self, piece: &[u8]) -> Result<usize, WriteFailed>
        requires { 0 < length piece.now }
        ensures some { IfOk result (λ k. 0 < k) }
        ensures within { IfOk result (λ k. k ≤ length piece.now) }
        ensures takes { IfOk result (λ k. self.new.bytes ≡ self.old.bytes ++ take k piece.now) }
        ensures keeps { OnErr result (self.new.bytes ≡ self.old.bytes) }
        ensures later { self.old.faults ≤ self.new.faults }
        ensures failed { OnErr result (Rose self.old.faults self.new.faults) }

        // Beyond what each sink promises.
        ensures fails { Contains self.old.fails (held (self.old.calls + 1)) → IsErr result }
        ensures count { IfOk result (λ k. k ≡ min self.old.chunk (length piece.now)) }
        ensures calls { self.new.calls ≡ held (self.old.calls + 1) }
        ensures fault { OnErr result (self.new.faults ≡ held (self.old.faults + 1)) }
        ensures no_fault { OnOk result (self.new.faults ≡ self.old.faults) }
        ensures chunk { self.new.chunk ≡ self.old.chunk }
        ensures fail_list { self.new.fails ≡ self.old.fails }
    {
        self.calls = self.calls.saturating_add(1);
        let count = piece.len().min(self.chunk);
        if self.fails.as_slice().contains(&self.calls)
            || self.bytes.extend_from_slice(&piece[..count]).is_err()
        {
            self.faults = self.faults.saturating_add(1);
            return Err(WriteFailed);
        }
        Ok(count)
    }
}

/// A writer of std as a sink: the edge to the outside. It takes no memory.
#[derive(Debug, Drop)]
pub struct StdSink<W> {
    pub writer: W,
    /// The number so far of the writer's errors and of writes that took nothing, held at
    /// `u64::MAX`.
    pub faults: u64,
}

impl<W> StdSink<W> {
    /// Writes to `writer`, with no faults so far.
    pub fn new(writer: W) -> StdSink<W>
        ensures { result ≡ record { writer = writer; faults = 0 } }
    {
        StdSink { writer, faults: 0 }
    }
}

impl<W: Write> Sink for StdSink<W> {
    ghost taken = { λ s. W.contents s.writer };

    ghost faults = { λ s. s.faults };

    fn write(&mut self, piece: &[u8]) -> Result<usize, WriteFailed>
        requires { 0 < length piece.now }
        ensures some { IfOk result (λ k. 0 < k) }
        ensures within { IfOk result (λ k. k ≤ length piece.now) }
        ensures takes { IfOk result (λ k.
            Appends (W.contents self.old.writer) (W.contents self.new.writer) (take k piece.now)) }
        ensures keeps { OnErr result
            (Keeps (W.contents self.old.writer) (W.contents self.new.writer)) }
        ensures later { self.old.faults ≤ self.new.faults }
        ensures failed { OnErr result (Rose self.old.faults self.new.faults) }

        // Beyond what each sink promises: the count rises by one at each fault, and only there.
        ensures fault { OnErr result (self.new.faults ≡ held (self.old.faults + 1)) }
        ensures no_fault { OnOk result (self.new.faults ≡ self.old.faults) }
    {
        match self.writer.write(piece) {
            Ok(count) if count > 0 => Ok(count),
            _ => {
                self.faults = self.faults.saturating_add(1);
                Err(WriteFailed)
            }
        }
    }
}
