//! Sources, sinks and whole streams.

use crate::arguments::{RowFault, number, numbers};
use cbt_base::{Duplicate, List, NoMemory};
use cbt_streams::{MemSink, MemSource, Sink, Source, StdSink, StdSource, read_all, write_all};
use std::alloc::Global;
use std::io;
use std::io::{ErrorKind, Read, Write};

/// How many bytes the buffer of a row has.
const BUFFER: usize = 4;

/// The longest input that a row makes.
const LONGEST: usize = 65_536;

/// The most items of a list that are shown.
const SHOWN: usize = 8;

/// `source COUNT CHUNK FAILS SIZES SIZES`: reads of these sizes, and further ones of a copy and of the
/// source itself. Its bytes are 1, 2, 3 and so on.
pub fn source(alloc: Global, out: &mut String, arguments: &[&str]) -> Result<(), RowFault> {
    let [count, chunk, fails, first, then] = arguments else {
        return Err(RowFault::NoSuchRow);
    };
    let mut source = mem_source(alloc, count, chunk, fails)?;
    show_reads(out, &mut source, first)?;
    show_further(alloc, out, &mut source, then)
}

fn show_further(
    alloc: Global,
    out: &mut String,
    source: &mut MemSource,
    sizes: &str,
) -> Result<(), RowFault> {
    out.push_str(", its copy ")?;
    show_copy(alloc, out, source, sizes)?;
    out.push_str(", then ")?;
    show_reads(out, source, sizes)?;
    show_counts(out, source.calls, source.faults)
}

fn show_copy(
    alloc: Global,
    out: &mut String,
    source: &MemSource,
    sizes: &str,
) -> Result<(), RowFault> {
    let mut copy = source.copy(alloc)?;
    show_reads(out, &mut copy, sizes)
}

fn show_counts(out: &mut String, calls: u64, faults: u64) -> Result<(), RowFault> {
    Ok(write!(out, "; {calls} calls, {faults} faults")?)
}

fn mem_source(alloc: Global, count: &str, chunk: &str, fails: &str) -> Result<MemSource, RowFault> {
    let count = number::<usize>(count)?.min(LONGEST);
    let chunk = number::<usize>(chunk)?;
    if chunk == 0 {
        return Err(RowFault::NoSuchRow);
    }
    let fails = numbers(alloc, fails)?;
    Ok(MemSource::new(counted(alloc, count)?, chunk, fails))
}

// So many bytes 1, 2, 3 and so on, from 1 again behind 250.
fn counted(alloc: Global, count: usize) -> Result<List<u8>, NoMemory> {
    let mut bytes = List::new(alloc);
    for n in 0..count {
        bytes.push((n % 250) as u8 + 1)?;
    }
    Ok(bytes)
}

// What reads of these sizes into one buffer answer, and the buffer after them.
fn show_reads<S: Source>(out: &mut String, source: &mut S, sizes: &str) -> Result<(), RowFault> {
    let mut buffer = [0; BUFFER];
    for size in sizes.split(',') {
        let size = number::<usize>(size)?;
        if size == 0 || size > BUFFER {
            return Err(RowFault::NoSuchRow);
        }
        match source.read(&mut buffer[..size]) {
            Ok(count) => write!(out, "{count} ")?,
            Err(_) => out.push_str("failed ")?,
        }
    }
    Ok(write!(out, "{buffer:?}")?)
}

/// `std_source TEXT SIZES`: reads of a reader over the text.
pub fn std_source(out: &mut String, arguments: &[&str]) -> Result<(), RowFault> {
    let [text, sizes] = arguments else {
        return Err(RowFault::NoSuchRow);
    };
    let mut source = StdSource::new(text.as_bytes());
    show_reads(out, &mut source, sizes)?;
    show_faults(out, source.faults)
}

fn show_faults(out: &mut String, faults: u64) -> Result<(), RowFault> {
    Ok(write!(out, "; {faults} faults")?)
}

/// A reader that only fails.
#[derive(Drop)]
struct NoReader;

impl Read for NoReader {
    fn read(&mut self, _into: &mut [u8]) -> io::Result<usize> {
        Err(ErrorKind::Other.into())
    }
}

/// `failing_source SIZES`: reads of a reader that only fails.
pub fn failing_source(out: &mut String, arguments: &[&str]) -> Result<(), RowFault> {
    let [sizes] = arguments else {
        return Err(RowFault::NoSuchRow);
    };
    let mut source = StdSource::new(NoReader);
    show_reads(out, &mut source, sizes)?;
    show_faults(out, source.faults)
}

/// `sink CHUNK FAILS PIECES`: writes of these pieces, and the bytes of the sink and of its copy.
pub fn sink(alloc: Global, out: &mut String, arguments: &[&str]) -> Result<(), RowFault> {
    let [chunk, fails, pieces] = arguments else {
        return Err(RowFault::NoSuchRow);
    };
    let mut sink = mem_sink(alloc, chunk, fails)?;
    show_writes(out, &mut sink, pieces)?;
    show_bytes_twice(alloc, out, &sink)?;
    show_counts(out, sink.calls, sink.faults)
}

// The bytes of a sink, and of its copy.
fn show_bytes_twice(alloc: Global, out: &mut String, sink: &MemSink) -> Result<(), RowFault> {
    show_bytes(out, sink.bytes.as_slice())?;
    out.push_str(", its copy ")?;
    let copy = sink.copy(alloc)?;
    show_bytes(out, copy.bytes.as_slice())
}

fn show_bytes(out: &mut String, bytes: &[u8]) -> Result<(), RowFault> {
    Ok(write!(out, "{bytes:?}")?)
}

fn mem_sink(alloc: Global, chunk: &str, fails: &str) -> Result<MemSink, RowFault> {
    let chunk = number::<usize>(chunk)?;
    if chunk == 0 {
        return Err(RowFault::NoSuchRow);
    }
    let fails = numbers(alloc, fails)?;
    Ok(MemSink::new(List::new(alloc), chunk, fails))
}

// What writes of these pieces answer.
fn show_writes<K: Sink>(out: &mut String, sink: &mut K, pieces: &str) -> Result<(), RowFault> {
    for piece in pieces.split(',') {
        if piece.is_empty() {
            return Err(RowFault::NoSuchRow);
        }
        match sink.write(piece.as_bytes()) {
            Ok(count) => write!(out, "{count} ")?,
            Err(_) => out.push_str("failed ")?,
        }
    }
    Ok(())
}

/// `std_sink PIECES`: writes to a `Vec`.
pub fn std_sink(alloc: Global, out: &mut String, arguments: &[&str]) -> Result<(), RowFault> {
    let [pieces] = arguments else {
        return Err(RowFault::NoSuchRow);
    };
    let mut sink = StdSink::new(Vec::new(alloc));
    show_writes(out, &mut sink, pieces)?;
    show_bytes(out, sink.writer.as_slice())?;
    show_faults(out, sink.faults)
}

/// A writer that takes nothing.
#[derive(Drop)]
struct FullWriter;

impl Write for FullWriter {
    fn write(&mut self, _piece: &[u8]) -> io::Result<usize> {
        Ok(0)
    }

    fn flush(&mut self) -> io::Result<()> {
        Ok(())
    }
}

/// `full_sink PIECES`: writes to a writer that takes nothing.
pub fn full_sink(out: &mut String, arguments: &[&str]) -> Result<(), RowFault> {
    let [pieces] = arguments else {
        return Err(RowFault::NoSuchRow);
    };
    let mut sink = StdSink::new(FullWriter);
    show_writes(out, &mut sink, pieces)?;
    show_faults(out, sink.faults)
}

/// `read_all COUNT CHUNK FAILS LIMIT`: the whole input, or its fault, and how many bytes were taken.
pub fn read_whole(alloc: Global, out: &mut String, arguments: &[&str]) -> Result<(), RowFault> {
    let [count, chunk, fails, limit] = arguments else {
        return Err(RowFault::NoSuchRow);
    };
    let limit = number::<usize>(limit)?;
    let mut source = mem_source(alloc, count, chunk, fails)?;
    show_whole(alloc, out, &mut source, limit)?;
    Ok(write!(out, ", {} taken", source.at)?)
}

fn show_whole(
    alloc: Global,
    out: &mut String,
    source: &mut MemSource,
    limit: usize,
) -> Result<(), RowFault> {
    match read_all(alloc, source, limit) {
        Ok(bytes) => show_some(out, bytes.as_slice()),
        Err(fault) => Ok(write!(out, "{fault}")?),
    }
}

// A few bytes; of many how many there are.
fn show_some(out: &mut String, bytes: &[u8]) -> Result<(), RowFault> {
    if bytes.len() > SHOWN {
        Ok(write!(out, "{} bytes", bytes.len())?)
    } else {
        show_bytes(out, bytes)
    }
}

/// `write_all CHUNK FAILS TEXT`: what the sink then has, behind the fault where there is one.
pub fn write_whole(alloc: Global, out: &mut String, arguments: &[&str]) -> Result<(), RowFault> {
    let [chunk, fails, text] = arguments else {
        return Err(RowFault::NoSuchRow);
    };
    let mut sink = mem_sink(alloc, chunk, fails)?;
    write_bytes(out, &mut sink, text.as_bytes())?;
    show_faults(out, sink.faults)
}

fn write_bytes(out: &mut String, sink: &mut MemSink, bytes: &[u8]) -> Result<(), RowFault> {
    if let Err(fault) = write_all(sink, bytes) {
        write!(out, "{fault}: ")?;
    }
    show_bytes(out, sink.bytes.as_slice())
}
