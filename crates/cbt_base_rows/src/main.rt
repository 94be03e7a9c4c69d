//! Reads rows, each a call on the base crates with its arguments, and prints each with its answer.
//! Empty lines and those that begin with `#` are printed as they are.
#![tactic(auto)]

mod arguments;
mod clocks;
mod copies;
mod identifiers;
mod streams;
mod words;

use arguments::{RowFault, quoted};
use std::alloc::Global;
use std::io;
use std::io::{BufRead, BufReader};

fn main(rt: HostRuntime) -> io::Result<()> {
    for line in BufReader::new(rt.alloc(), rt.reader())?.lines(rt.alloc()) {
        print_row(&rt, line?.as_str())?;
    }
    Ok(())
}

fn print_row<R: Print + AllocGlobal>(rt: &R, line: &str) -> io::Result<()> {
    if line.is_empty() || line.starts_with('#') {
        return println!(rt; "{line}");
    }
    let mut answer = String::new(rt.alloc());
    match answer_to(rt.alloc(), &mut answer, line) {
        Ok(()) => println!(rt; "{line} => {answer}"),
        Err(RowFault::NoSuchRow) => println!(rt; "{line} => no such row"),
        Err(RowFault::NoMemory) => println!(rt; "{line} => out of memory"),
    }
}

fn answer_to(alloc: Global, out: &mut String, line: &str) -> Result<(), RowFault> {
    let (word, argument) = line.split_once(' ').unwrap_or((line, ""));
    if argument.starts_with('"') {
        let text = quoted(alloc, argument)?;
        return words::answer(alloc, out, word, &text);
    }
    let arguments: Vec<&str> = argument.split(' ').collect(alloc)?;
    answer_to_words(alloc, out, word, &arguments)
}

fn answer_to_words(
    alloc: Global,
    out: &mut String,
    word: &str,
    arguments: &[&str],
) -> Result<(), RowFault> {
    match word {
        "long_doc_id" => identifiers::long_doc_id(alloc, out, arguments),
        "atr" => identifiers::atr(alloc, out, arguments),
        "attempt" => identifiers::attempt(alloc, out, arguments),
        "cleaner" => identifiers::cleaner(alloc, out, arguments),
        "read_id" => identifiers::read_id(alloc, out, arguments),
        "list" => copies::list(alloc, out, arguments),
        "map" => copies::map(alloc, out, arguments),
        "pair" => copies::pair(alloc, out, arguments),
        "clock" => clocks::clock(out, arguments),
        "ms" => clocks::milliseconds(out, arguments),
        "step_clock" => clocks::step_clock(out, arguments),
        "list_clock" => clocks::list_clock(alloc, out, arguments),
        _ => answer_on_streams(alloc, out, word, arguments),
    }
}

fn answer_on_streams(
    alloc: Global,
    out: &mut String,
    word: &str,
    arguments: &[&str],
) -> Result<(), RowFault> {
    match word {
        "source" => streams::source(alloc, out, arguments),
        "std_source" => streams::std_source(out, arguments),
        "failing_source" => streams::failing_source(out, arguments),
        "sink" => streams::sink(alloc, out, arguments),
        "std_sink" => streams::std_sink(alloc, out, arguments),
        "full_sink" => streams::full_sink(out, arguments),
        "read_all" => streams::read_whole(alloc, out, arguments),
        "write_all" => streams::write_whole(alloc, out, arguments),
        _ => Err(RowFault::NoSuchRow),
    }
}
