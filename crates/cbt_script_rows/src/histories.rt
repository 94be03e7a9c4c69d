//! History texts: whether they are read, and whether what was read is written as the same text again.

use crate::books::book_of;
use crate::notation::bytes_of;
use anyhow::Result;
use cbt_base::List;
use cbt_history::{HistoryFault, history_of, history_read};
use cbt_model::Event;
use cbt_script::Script;
use std::alloc::{AllocError, Global};

/// The last stamp of an opening, and the most events, of the histories that are written again.
const LAST: u64 = 65536;

const MOST_EVENTS: usize = 1000;

/// What is told of a history text.
pub fn told_of_whole(alloc: Global, notation: &str) -> Result<String> {
    let text = bytes_of(alloc, notation)?;
    told(alloc, text.as_slice())
}

/// What is told of a history without events whose script has these lines behind its settings.
pub fn told_of_script(alloc: Global, notation: &str) -> Result<String> {
    let mut text = settings(alloc)?;
    text.extend_from_slice(bytes_of(alloc, notation)?.as_slice())?;
    text.extend_from_slice(b"events\n")?;
    told(alloc, text.as_slice())
}

/// What is told of a history with these lines of events, whose script has one document.
pub fn told_of_events(alloc: Global, notation: &str) -> Result<String> {
    let mut text = settings(alloc)?;
    text.extend_from_slice(b"doc a {\"n\":1}\nevents\n")?;
    text.extend_from_slice(bytes_of(alloc, notation)?.as_slice())?;
    told(alloc, text.as_slice())
}

// The first five lines of a history: those of the settings that are always there.
fn settings(alloc: Global) -> Result<Vec<u8>, AllocError> {
    let mut text = Vec::new(alloc);
    text.extend_from_slice(b"script\natrs 16\nexpiry 15000\ntries 8\nlapse 60000\n")?;
    Ok(text)
}

fn told(alloc: Global, text: &[u8]) -> Result<String> {
    match history_read(alloc, text) {
        Ok((script, events)) => read(alloc, &script, events, text),
        Err(HistoryFault::BadLine { line }) => Ok(format!(in alloc; "BadLine {line}")?),
        Err(HistoryFault::NoMemory) => Ok("out of memory".to_string(alloc)?),
    }
}

// How many events were read, and whether they are written as the text that they were read from. Its
// clock and its history are small, as the writing asks.
fn read(alloc: Global, script: &Script, events: List<Event>, text: &[u8]) -> Result<String> {
    let count = events.len();
    let book = book_of(alloc, script.opening(alloc)?, events, List::new(alloc));
    if book.kept.opening.last > LAST || count > MOST_EVENTS {
        return Ok("too large a history".to_string(alloc)?);
    }
    let again = history_of(alloc, script, &book)?;
    let how = if again.as_bytes() == text {
        "the same"
    } else {
        "otherwise"
    };
    Ok(format!(in alloc; "{count} events, again {how}")?)
}
