//! The step table: steps on a state with one document, `a`, of stamp 1, one after another.

ghost use Rattle.std.specs.Prelude.{◌^◌, ◌<◌};

use crate::replies::{in_words, value};
use crate::steps::step_of;
use crate::words::{cut, document, json, number};
use anyhow::Result;
use cbt_base::Map;
use cbt_model::{DocState, State, Step, apply, fits, step_fits, view};
use std::alloc::Global;

/// What is answered to each part of a row: the clock with the body and the attributes of the document,
/// and then steps, each behind the reading at which it is made, and questions.
pub fn table(alloc: Global, row: &str) -> Result<String> {
    let mut told = String::new(alloc);
    let mut state = empty_state(alloc);
    for part in row.split(" / ") {
        if !told.is_empty() {
            told.push_str(" / ")?;
        }
        told.push_str(told_of(alloc, &mut state, part)?.as_str())?;
    }
    Ok(told)
}

fn empty_state(alloc: Global) -> State {
    State {
        last: 0,
        docs: Map::new(alloc),
        entries: Map::new(alloc),
        clients: Map::new(alloc),
    }
}

fn told_of(alloc: Global, state: &mut State, part: &str) -> Result<String> {
    let (word, rest) = cut(part);
    match word {
        "clock" => opened(alloc, state, rest),
        "view" => viewed(alloc, state, rest),
        "attrs" => attributes(alloc, state, rest),
        _ => made(alloc, state, number(word).unwrap_or(0), rest),
    }
}

// Sets the clock and puts the document in.
fn opened(alloc: Global, state: &mut State, text: &str) -> Result<String> {
    let (last, rest) = cut(text);
    let (body, attrs) = cut(rest);
    state.last = number(last).unwrap_or(0);
    if let (Some(id), Some(attrs)) = (document(alloc, "a"), json(alloc, attrs)) {
        let doc = DocState {
            cas: 1,
            body: json(alloc, body),
            attrs,
            stage: None,
        };
        state.docs.insert(id, doc)?;
    }
    Ok("open".to_string(alloc)?)
}

// What a document resolves to.
fn viewed(alloc: Global, state: &State, id: &str) -> Result<String> {
    match document(alloc, id) {
        Some(doc) => value(alloc, view(state, &doc)),
        None => no_such_step(alloc),
    }
}

// The attributes of a document.
fn attributes(alloc: Global, state: &State, id: &str) -> Result<String> {
    let attrs = match document(alloc, id) {
        Some(doc) => state.docs.get(&doc).map(|there| &there.attrs),
        None => None,
    };
    value(alloc, attrs)
}

// Makes a step at a reading.
fn made(alloc: Global, state: &mut State, reading: u64, text: &str) -> Result<String> {
    match step_of(alloc, text) {
        Some(step) if step_fits(&step) && state.last < 1 << 62 => {
            replied(alloc, state, reading, &step)
        }
        _ => no_such_step(alloc),
    }
}

fn replied(alloc: Global, state: &mut State, reading: u64, step: &Step) -> Result<String>
    requires { state.old.last < 2 ^ 62 }
{
    let reply = apply(alloc, state, reading, step)?;
    if fits(step, &reply) {
        in_words(alloc, &reply)
    } else {
        Ok("a reply that does not fit".to_string(alloc)?)
    }
}

/// The answer where a part names no step.
pub fn no_such_step(alloc: Global) -> Result<String> {
    Ok("no such step".to_string(alloc)?)
}
