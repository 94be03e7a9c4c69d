//! What is asked of a row, and its answer.

use crate::cases::copied;
use crate::histories::{told_of_events, told_of_script, told_of_whole};
use crate::notation::{bytes_of, in_one_line};
use crate::reports::report;
use anyhow::Result;
use cbt_script::Script;
use std::alloc::{AllocError, Global};

/// What is told of a script.
#[derive(Clone, Copy)]
enum Asked {
    /// That it is one.
    Taken,
    /// Its canonical text.
    Text,
    /// How many items its order has.
    Items,
    /// Its opening state: the clock, and each document with its CAS.
    Opening,
    /// What a copy of its case holds.
    Case,
}

/// The answer to a row.
pub fn answer(alloc: Global, row: &str) -> Result<String> {
    match row.split_once(' ') {
        Some(("read", notation)) => told(alloc, notation, Asked::Taken),
        Some(("text", notation)) => told(alloc, notation, Asked::Text),
        Some(("items", notation)) => told(alloc, notation, Asked::Items),
        Some(("opening", notation)) => told(alloc, notation, Asked::Opening),
        Some(("case", notation)) => told(alloc, notation, Asked::Case),
        Some(("report", name)) => report(alloc, name),
        Some(("history", notation)) => told_of_whole(alloc, notation),
        Some(("canonical", notation)) => told_of_script(alloc, notation),
        Some(("events", notation)) => told_of_events(alloc, notation),
        _ => Ok("no such row".to_string(alloc)?),
    }
}

// What is asked of a script, or where and why it is refused.
fn told(alloc: Global, notation: &str, asked: Asked) -> Result<String> {
    let bytes = bytes_of(alloc, notation)?;
    match Script::read(alloc, bytes.as_slice()) {
        Ok(script) => tell(alloc, &script, asked),
        Err(fault) => Ok(format!(in alloc; "{fault}")?),
    }
}

fn tell(alloc: Global, script: &Script, asked: Asked) -> Result<String> {
    match asked {
        Asked::Taken => Ok("taken".to_string(alloc)?),
        Asked::Text => {
            let text = script.text(alloc)?;
            Ok(in_one_line(alloc, text.as_str())?)
        }
        Asked::Items => {
            let items = script.order.len();
            Ok(format!(in alloc; "{items}")?)
        }
        Asked::Opening => opening(alloc, script),
        Asked::Case => copied(alloc, script),
    }
}

fn opening(alloc: Global, script: &Script) -> Result<String> {
    let state = script.opening(alloc)?;
    let last = state.last;
    let mut told = format!(in alloc; "clock {last}")?;
    for (id, doc) in state.docs.iter() {
        push_document(&mut told, id.as_str(), doc.cas)?;
    }
    Ok(told)
}

fn push_document(told: &mut String, id: &str, cas: u64) -> Result<(), AllocError> {
    write!(told, ", {id} {cas}")
}
