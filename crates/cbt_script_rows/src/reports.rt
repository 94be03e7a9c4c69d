//! Reports of books written out: one in which nothing happened, and one with each outcome.

use crate::books;
use crate::notation::in_one_line;
use anyhow::Result;
use cbt_base::Duplicate;
use cbt_book::Book;
use cbt_report::report_of;
use cbt_script::Script;
use std::alloc::Global;

/// The last stamp of an opening, and the most events, of the books that are written out.
const LAST: u64 = 5;

const MOST_EVENTS: usize = 3;

/// The report of a copy of the book of this name.
pub fn report(alloc: Global, name: &str) -> Result<String> {
    let book = match name {
        "nothing_happened" => books::nothing_happened(alloc),
        "each_outcome" => books::each_outcome(alloc)?,
        _ => return Ok("no such row".to_string(alloc)?),
    };
    let script = Script::read(alloc, script_of(name))?;
    written(alloc, &script, &book.copy(alloc)?)
}

// The script to which a book belongs.
fn script_of(name: &str) -> &'static [u8] {
    match name {
        "each_outcome" => b"client x\ncleaner k1 3\nsweep 0",
        _ => b"",
    }
}

// Its clock and its history are small, as a report asks.
fn written(alloc: Global, script: &Script, book: &Book) -> Result<String> {
    if book.kept.opening.last > LAST || book.kept.history.len() > MOST_EVENTS {
        return Ok("too large a book".to_string(alloc)?);
    }
    let text = report_of(alloc, script, book)?;
    Ok(in_one_line(alloc, text.as_str())?)
}
