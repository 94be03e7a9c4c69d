//! The arguments of a row, and values in its answer.

use cbt_base::NoMemory;
use cbt_json::Json;
use std::alloc::{AllocError, Global};
use std::str::FromStr;

/// The longest text that an answer has whole.
const LONGEST: usize = 200;

/// The most levels or bytes of a value that a row makes.
const LARGEST: usize = 8192;

/// Why a row has no answer.
#[derive(Clone, Copy)]
pub enum RowFault {
    /// Its word or its form is unknown.
    NoSuchRow,
    NoMemory,
}

impl From<NoMemory> for RowFault {
    fn from(_refused: NoMemory) -> RowFault {
        RowFault::NoMemory
    }
}

impl From<AllocError> for RowFault {
    fn from(_refused: AllocError) -> RowFault {
        RowFault::NoMemory
    }
}

/// The number that a word is.
pub fn number<N: FromStr>(word: &str) -> Result<N, RowFault>
where
    N::Err: Drop,
{
    match word.parse::<N>() {
        Ok(number) => Ok(number),
        Err(_) => Err(RowFault::NoSuchRow),
    }
}

/// The two parts of an argument.
pub fn two_parts<'a>(argument: &'a str, between: &str) -> Result<(&'a str, &'a str), RowFault> {
    match argument.split_once(between) {
        Some(parts) => Ok(parts),
        None => Err(RowFault::NoSuchRow),
    }
}

/// The value of a text.
pub fn json(alloc: Global, bytes: &[u8]) -> Result<Json, RowFault> {
    match Json::read(alloc, bytes) {
        Ok(json) => Ok(json),
        Err(_) => Err(RowFault::NoSuchRow),
    }
}

/// So many lists, one inside the other.
pub fn nested(alloc: Global, depth: &str) -> Result<String, RowFault> {
    let depth = number::<usize>(depth)?.min(LARGEST);
    let mut text = "[".repeat(alloc, depth)?;
    text.push_str(&"]".repeat(alloc, depth)?)?;
    Ok(text)
}

/// A text of JSON with so many bytes, at least two.
pub fn long_text(alloc: Global, len: &str) -> Result<String, RowFault> {
    let len = number::<usize>(len)?.min(LARGEST);
    let mut text = String::from_str(alloc, "\"")?;
    text.push_str(&"x".repeat(alloc, len.saturating_sub(2))?)?;
    text.push('"')?;
    Ok(text)
}

/// Puts the text of a value into an answer; of a long one how many bytes it has.
pub fn show(alloc: Global, out: &mut String, json: &Json) -> Result<(), RowFault> {
    let text = json.text(alloc)?;
    if text.len() > LONGEST {
        Ok(write!(out, "{} bytes", text.len())?)
    } else {
        Ok(out.push_str(text.as_str())?)
    }
}
