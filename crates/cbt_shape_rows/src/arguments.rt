//! The arguments of a row, and values in its answer.

use cbt_base::{Id, NoMemory};
use cbt_json::Json;
use std::alloc::{AllocError, Global};
use std::str::FromStr;

/// Why a row has no answer.
#[derive(Clone, Copy)]
pub enum RowFault {
    /// Its word or its form is unknown.
    NoSuchRow,
    NoMemory,
}

impl From<NoMemory> for RowFault {
    fn from(_refused: NoMemory) -> RowFault {
        RowFault::NoMemory
    }
}

impl From<AllocError> for RowFault {
    fn from(_refused: AllocError) -> RowFault {
        RowFault::NoMemory
    }
}

/// The number that a word is.
pub fn number<N: FromStr>(word: &str) -> Result<N, RowFault>
where
    N::Err: Drop,
{
    match word.parse::<N>() {
        Ok(number) => Ok(number),
        Err(_) => Err(RowFault::NoSuchRow),
    }
}

/// The identifier that a word is.
pub fn id(word: &str) -> Result<Id, RowFault> {
    Id::read(word).ok_or(RowFault::NoSuchRow)
}

/// The word before the next space, and what stands behind that.
pub fn word(argument: &str) -> (&str, &str) {
    argument.split_once(' ').unwrap_or((argument, ""))
}

/// The value of a text.
pub fn json(alloc: Global, text: &str) -> Result<Json, RowFault> {
    match Json::read(alloc, text.as_bytes()) {
        Ok(json) => Ok(json),
        Err(_) => Err(RowFault::NoSuchRow),
    }
}

/// Puts the text of a value into an answer.
pub fn show(alloc: Global, out: &mut String, json: &Json) -> Result<(), RowFault> {
    let text = json.text(alloc)?;
    Ok(out.push_str(text.as_str())?)
}

/// Puts the text of an identifier into an answer.
pub fn show_id(alloc: Global, out: &mut String, id: Id) -> Result<(), RowFault> {
    let text = id.text(alloc)?;
    Ok(out.push_str(text.as_str())?)
}
