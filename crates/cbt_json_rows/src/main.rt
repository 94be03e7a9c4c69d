//! Reads rows, each a call on the crates of JSON, paths and documents with its arguments, and prints
//! each with its answer. Empty lines and those that begin with `#` are printed as they are.
#![tactic(auto)]

mod arguments;
mod changes;
mod documents;
mod looks;
mod paths;
mod values;

use arguments::{RowFault, show};
use cbt_json::Json;
use std::alloc::Global;
use std::io;
use std::io::{BufRead, BufReader};

fn main(rt: HostRuntime) -> io::Result<()> {
    for line in BufReader::new(rt.alloc(), rt.reader())?.lines(rt.alloc()) {
        print_row(&rt, line?.as_str())?;
    }
    Ok(())
}

fn print_row<R: Print + AllocGlobal>(rt: &R, line: &str) -> io::Result<()> {
    if line.is_empty() || line.starts_with('#') {
        return println!(rt; "{line}");
    }
    let mut answer = String::new(rt.alloc());
    match answer_to(rt.alloc(), &mut answer, line) {
        Ok(()) => println!(rt; "{line} => {answer}"),
        Err(RowFault::NoSuchRow) => println!(rt; "{line} => no such row"),
        Err(RowFault::NoMemory) => println!(rt; "{line} => out of memory"),
    }
}

fn answer_to(alloc: Global, out: &mut String, line: &str) -> Result<(), RowFault> {
    let (word, argument) = line.split_once(' ').unwrap_or((line, ""));
    match word {
        "read" => values::read(alloc, out, argument.as_bytes()),
        "read_hex" => values::read_hex(alloc, out, argument),
        "read_nested" => values::read_nested(alloc, out, argument),
        "same" => values::same(alloc, out, argument),
        "fits_long" => values::fits_long(alloc, out, argument),
        "fits_nested" => values::fits_nested(alloc, out, argument),
        "empty_object" => values::empty_object(alloc, out),
        "whole" => values::whole(alloc, out, argument),
        "object" => values::object(alloc, out, argument),
        "list_around" => values::list_around(alloc, out, argument),
        "null" => show(alloc, out, &Json::null()),
        "kept" => values::kept(alloc, out, argument),
        _ => answer_on_paths(alloc, out, word, argument),
    }
}

fn answer_on_paths(
    alloc: Global,
    out: &mut String,
    word: &str,
    argument: &str,
) -> Result<(), RowFault> {
    match word {
        "path" => paths::path(alloc, out, argument),
        "path_of_parts" => paths::path_of_parts(alloc, out, argument),
        "long_path" => paths::long_path(alloc, out, argument),
        "last_items" => paths::last_items(alloc, out, argument),
        "look" => looks::look(alloc, out, argument),
        "change" => changes::change(alloc, out, argument),
        "count_up" => changes::count_up(alloc, out, argument),
        "upsert_nested" => changes::upsert_nested(alloc, out, argument),
        "macro_text" => changes::stamp_text(alloc, out, argument),
        "call" => documents::call(alloc, out, argument),
        "look_doc" => documents::look(alloc, out, argument),
        _ => Err(RowFault::NoSuchRow),
    }
}
