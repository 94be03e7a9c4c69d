//! Replies in words.

use anyhow::Result;
use cbt_base::{Id, List};
use cbt_json::Json;
use cbt_model::{ClientRow, Entry, EntryState, Reply, Stage};
use std::alloc::Global;

/// A reply in words.
pub fn in_words(alloc: Global, reply: &Reply) -> Result<String> {
    match reply {
        Reply::Doc { cas, body, stage } => document(alloc, *cas, body.as_ref(), stage.as_ref()),
        Reply::Done { cas } => Ok(format!(in alloc; "done {cas}")?),
        Reply::CasMismatch { have } => Ok(format!(in alloc; "mismatch {have}")?),
        Reply::Entry(entry) => {
            let state = state_word(entry.state);
            let start = entry.start;
            Ok(format!(in alloc; "entry {state} {start}")?)
        }
        Reply::Entries(entries) => entries_in_words(alloc, entries),
        Reply::Clients(rows) => rows_in_words(alloc, rows),
        other => Ok(plain_word(other).to_string(alloc)?),
    }
}

fn plain_word(reply: &Reply) -> &'static str {
    match reply {
        Reply::Absent => "absent",
        Reply::Exists => "exists",
        Reply::NoEntry => "no entry",
        Reply::Decided => "decided",
        _ => "failed",
    }
}

fn state_word(state: EntryState) -> &'static str {
    match state {
        EntryState::Pending => "pending",
        EntryState::Committed => "committed",
        EntryState::Aborted => "aborted",
    }
}

/// The text of a value, or `none`.
pub fn value(alloc: Global, value: Option<&Json>) -> Result<String> {
    match value {
        Some(json) => Ok(json.text(alloc)?.into_string()),
        None => Ok("none".to_string(alloc)?),
    }
}

fn document(alloc: Global, cas: u64, body: Option<&Json>, stage: Option<&Stage>) -> Result<String> {
    let body = value(alloc, body)?;
    match stage {
        Some(stage) => {
            let content = value(alloc, stage.content.as_ref())?;
            Ok(format!(in alloc; "doc {cas} {body} staged {content}")?)
        }
        None => Ok(format!(in alloc; "doc {cas} {body}")?),
    }
}

// The entries of a record, each with its attempt.
fn entries_in_words(alloc: Global, entries: &List<(Id, Entry)>) -> Result<String> {
    let mut words = "entries".to_string(alloc)?;
    for (attempt, entry) in entries.iter() {
        let id = attempt.text(alloc)?;
        let start = entry.start;
        write!(words, ", {id} {start}")?;
    }
    Ok(words)
}

// The rows of the client record: who, the last beat, how long it counts, how many records.
fn rows_in_words(alloc: Global, rows: &List<(Id, ClientRow)>) -> Result<String> {
    let mut words = "clients".to_string(alloc)?;
    for (cleaner, row) in rows.iter() {
        let id = cleaner.text(alloc)?;
        let (beat, expires, records) = (row.heartbeat, row.expires, row.num_atrs);
        write!(words, ", {id} {beat} {expires} {records}")?;
    }
    Ok(words)
}
