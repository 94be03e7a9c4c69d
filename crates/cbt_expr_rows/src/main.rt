//! Reads rows, each a call on the crates of expressions with its arguments, and prints each with its
//! answer. Empty lines and those that begin with `#` are printed as they are.
#![tactic(auto)]

mod arguments;
mod texts;
mod values;

use arguments::RowFault;
use std::alloc::Global;
use std::io;
use std::io::{BufRead, BufReader};

fn main(rt: HostRuntime) -> io::Result<()> {
    for line in BufReader::new(rt.alloc(), rt.reader())?.lines(rt.alloc()) {
        print_row(&rt, line?.as_str())?;
    }
    Ok(())
}

fn print_row<R: Print + AllocGlobal>(rt: &R, line: &str) -> io::Result<()> {
    if line.is_empty() || line.starts_with('#') {
        return println!(rt; "{line}");
    }
    let mut answer = String::new(rt.alloc());
    match answer_to(rt.alloc(), &mut answer, line) {
        Ok(()) => println!(rt; "{line} => {answer}"),
        Err(RowFault::NoSuchRow) => println!(rt; "{line} => no such row"),
        Err(RowFault::NoMemory) => println!(rt; "{line} => out of memory"),
    }
}

fn answer_to(alloc: Global, out: &mut String, line: &str) -> Result<(), RowFault> {
    let (word, argument) = line.split_once(' ').unwrap_or((line, ""));
    match word {
        "expr" => texts::expr(alloc, out, argument),
        "nested" => texts::nested(alloc, out, argument),
        "long_path" => texts::long_path(alloc, out, argument),
        "cond" => texts::cond(alloc, out, argument),
        "value" => values::value(alloc, out, argument),
        "long_value" => values::long_value(alloc, out, argument),
        "holds" => values::truth(alloc, out, argument),
        "long_left" => values::long_left(alloc, out, argument),
        "long_right" => values::long_right(alloc, out, argument),
        _ => Err(RowFault::NoSuchRow),
    }
}
