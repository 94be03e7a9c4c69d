//! Where the program's input comes from.
ghost use Rattle.std.specs.Prelude.{◌≡◌, ℕ, ◌+◌, ◌-◌, ◌<◌, ◌≤◌, ◌↔◌, [], ◌++◌, Option, Some, min, length, take, drop, Contains, IsErr, IfOk, OnOk, OnErr};
ghost use mathlib.Core.List.{List as Seq};
ghost use Rattle.std.specs.Io.KnownBytes.{Consumes, IsAtEnd, Keeps};
ghost use Rattle.cbt_base.specs.Clock.{held};
ghost use Rattle.cbt_streams.specs.Causes.{Rose};
ghost use Rattle.cbt_streams.specs.Streams.{EndsExactly};

use cbt_base::{Duplicate, List, NoMemory};
use std::alloc::Global;
use std::error::Error;
use std::fmt;
use std::io::Read;

/// A read that failed. The count of the source's faults says why: it rose.
#[derive(Clone, Copy, Debug, PartialEq, Eq)]
pub struct ReadFailed;

impl fmt::Display for ReadFailed {
    fn fmt<W: fmt::Write>(&self, f: &mut fmt::Formatter<W>) -> fmt::Result {
        f.write_str("the input could not be read")
    }
}

impl Error for ReadFailed {}

/// A stream of input bytes.
pub trait Source {
    /// The bytes left, where it tells them.
    ghost left: { Self → Option (Seq ℕ) };
    /// How many faults there were, held at 2^64 - 1.
    ghost faults: { Self → ℕ };

    /// Moves the next bytes into the front of `into` and answers their number, which is 0 at the
    /// end of the input. A read that fails moves none.
    fn read(&mut self, into: &mut [u8]) -> Result<usize, ReadFailed>
        requires { 0 < length into.old }
        ensures within { IfOk result (λ k. k ≤ length into.old) }
        ensures moves { IfOk result (λ k.
            Consumes (left self.old) (left self.new) (take k into.new)) }
        ensures ends { IfOk result (EndsExactly (left self.old)) }
        ensures ended { IfOk result (λ k. k ≡ 0 → IsAtEnd (left self.new)) }
        ensures keeps { OnErr result (Keeps (left self.old) (left self.new)) }
        ensures later { faults self.old ≤ faults self.new }
        ensures failed { OnErr result (Rose (faults self.old) (faults self.new)) };
}

/// Bytes in memory, given in pieces. It takes no memory.
#[derive(Debug, Drop)]
pub struct MemSource {
    pub bytes: List<u8>,
    /// The place of the next byte.
    pub at: usize,
    /// The largest number of bytes that a call gives, at least 1.
    pub chunk: usize,
    /// The numbers of the calls that fail, from 1.
    pub fails: List<u64>,
    /// The number of calls so far, held at `u64::MAX`.
    pub calls: u64,
    /// The number of failed calls so far, held at `u64::MAX`.
    pub faults: u64,
    ghost some: { 0 < chunk },
}

impl MemSource {
    /// A source that gives `bytes` from their front, at most `chunk` of them per call.
    pub fn new(bytes: List<u8>, chunk: usize, fails: List<u64>) -> MemSource
        requires { 0 < chunk }
        ensures bytes { result.bytes ≡ bytes }
        ensures chunk { result.chunk ≡ chunk }
        ensures fails { result.fails ≡ fails }
        ensures at { result.at ≡ 0 }
        ensures calls { result.calls ≡ 0 }
        ensures faults { result.faults ≡ 0 }
    {
        MemSource {
            bytes,
            at: 0,
            chunk,
            fails,
            calls: 0,
            faults: 0,
        }
    }
}

impl Duplicate for MemSource {
    fn copy(&self, alloc: Global) -> Result<MemSource, NoMemory> {
        Ok(MemSource {
            bytes: List::from_slice(alloc, self.bytes.as_slice())?,
            at: self.at,
            chunk: self.chunk,
            fails: self.fails.copy(alloc)?,
            calls: self.calls,
            faults: self.faults,
        })
    }
}

impl Source for MemSource {
    ghost left = { λ s. Some (drop s.at s.bytes) };

    ghost faults = { λ s. s.faults };

    fn read(&mut self, into: &mut [u8]) -> Result<usize, ReadFailed>
        requires { 0 < length into.old }
        ensures within { IfOk result (λ k. k ≤ length into.old) }
        ensures moves { IfOk result (λ k.
            drop self.old.at self.old.bytes ≡ take k into.new ++ drop self.new.at self.new.bytes) }
        ensures ends { IfOk result (λ k. (k ≡ 0) ↔ (drop self.old.at self.old.bytes ≡ [])) }
        ensures ended { IfOk result (λ k. k ≡ 0 → drop self.new.at self.new.bytes ≡ []) }
        ensures keeps { OnErr result
            (drop self.new.at self.new.bytes ≡ drop self.old.at self.old.bytes) }
        ensures later { self.old.faults ≤ self.new.faults }
        ensures failed { OnErr result (Rose self.old.faults self.new.faults) }

        // Beyond what each source promises.
        ensures fails { IsErr result ↔ Contains self.old.fails (held (self.old.calls + 1)) }
        ensures count { IfOk result (λ k.
            k ≡ min (min self.old.chunk (length into.old))
            (length (drop self.old.at self.old.bytes))) }
        ensures place { IfOk result (λ k. self.new.at ≡ self.old.at + k) }
        ensures place_kept { OnErr result (self.new.at ≡ self.old.at) }
        ensures calls { self.new.calls ≡ held (self.old.calls + 1) }
        ensures fault { OnErr result (self.new.faults ≡ held (self.old.faults + 1)) }
        ensures no_fault { OnOk result (self.new.faults ≡ self.old.faults) }
        ensures bytes { self.new.bytes ≡ self.old.bytes }
        ensures chunk { self.new.chunk ≡ self.old.chunk }
        ensures fail_list { self.new.fails ≡ self.old.fails }
    {
        self.calls = self.calls.saturating_add(1);
        if self.fails.as_slice().contains(&self.calls) {
            self.faults = self.faults.saturating_add(1);
            return Err(ReadFailed);
        }
        let bytes = self.bytes.as_slice();
        let (_, rest) = bytes.split_at(self.at.min(bytes.len()));
        let count = rest.len().min(self.chunk).min(into.len());
        into[..count].copy_from_slice(&rest[..count]);
        self.at += count;
        Ok(count)
    }
}

/// A reader of std as a source: the edge to the outside. It takes no memory.
#[derive(Debug, Drop)]
pub struct StdSource<R> {
    pub reader: R,
    /// The number of the reader's errors so far, held at `u64::MAX`.
    pub faults: u64,
}

impl<R> StdSource<R> {
    /// The bytes of `reader`, with no faults so far.
    pub fn new(reader: R) -> StdSource<R>
        ensures { result ≡ record { reader = reader; faults = 0 } }
    {
        StdSource { reader, faults: 0 }
    }
}

impl<R: Read> Source for StdSource<R> {
    ghost left = { λ s. R.remaining s.reader };

    ghost faults = { λ s. s.faults };

    fn read(&mut self, into: &mut [u8]) -> Result<usize, ReadFailed>
        requires { 0 < length into.old }
        ensures within { IfOk result (λ k. k ≤ length into.old) }
        ensures moves { IfOk result (λ k.
            Consumes (R.remaining self.old.reader) (R.remaining self.new.reader)
            (take k into.new)) }
        ensures ends { IfOk result (EndsExactly (R.remaining self.old.reader)) }
        ensures ended { IfOk result (λ k. k ≡ 0 → IsAtEnd (R.remaining self.new.reader)) }
        ensures keeps { OnErr result
            (Keeps (R.remaining self.old.reader) (R.remaining self.new.reader)) }
        ensures later { self.old.faults ≤ self.new.faults }
        ensures failed { OnErr result (Rose self.old.faults self.new.faults) }

        // Beyond what each source promises: the count rises by one at each error, and only there.
        ensures fault { OnErr result (self.new.faults ≡ held (self.old.faults + 1)) }
        ensures no_fault { OnOk result (self.new.faults ≡ self.old.faults) }
    {
        match self.reader.read(into) {
            Ok(count) => Ok(count),
            Err(_) => {
                self.faults = self.faults.saturating_add(1);
                Err(ReadFailed)
            }
        }
    }
}
