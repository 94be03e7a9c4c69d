//! Reads rows, each the written form of a staging or of entries, or what it is to be written of, and
//! prints each with its answer. Empty lines and those that begin with `#` are printed as they are.
#![tactic(auto)]

mod arguments;
mod entries;
mod stagings;

use arguments::RowFault;
use std::alloc::Global;
use std::io;
use std::io::{BufRead, BufReader};

fn main(rt: HostRuntime) -> io::Result<()> {
    for line in BufReader::new(rt.alloc(), rt.reader())?.lines(rt.alloc()) {
        print_row(&rt, line?.as_str())?;
    }
    Ok(())
}

fn print_row<R: Print + AllocGlobal>(rt: &R, line: &str) -> io::Result<()> {
    if line.is_empty() || line.starts_with('#') {
        return println!(rt; "{line}");
    }
    let mut answer = String::new(rt.alloc());
    match answer_to(rt.alloc(), &mut answer, line) {
        Ok(()) => println!(rt; "{line} => {answer}"),
        Err(RowFault::NoSuchRow) => println!(rt; "{line} => no such row"),
        Err(RowFault::NoMemory) => println!(rt; "{line} => out of memory"),
    }
}

fn answer_to(alloc: Global, out: &mut String, line: &str) -> Result<(), RowFault> {
    let (word, argument) = line.split_once(' ').unwrap_or((line, ""));
    match word {
        "read_txn" => stagings::read_txn(alloc, out, argument),
        "write_txn" => stagings::write_txn(alloc, out, argument),
        "read_attempts" => entries::read_attempts(alloc, out, argument),
        "write_attempts" => entries::write_attempts(alloc, out, argument),
        _ => Err(RowFault::NoSuchRow),
    }
}
