//! The program's input and output: sources and sinks that count their faults, and whole streams.
#![tactic(auto)]

mod sink;
mod source;
mod whole;

pub use sink::{MemSink, Sink, StdSink, WriteFailed};
pub use source::{MemSource, ReadFailed, Source, StdSource};
pub use whole::{ReadFault, read_all, rose_is_larger_or_at_the_end, write_all};
