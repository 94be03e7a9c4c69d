//! The arguments of a row, and texts in its answer.

use cbt_base::NoMemory;
use std::alloc::AllocError;

/// The longest text that an answer has whole.
const LONGEST: usize = 200;

/// The most levels or bytes of a text that a row makes.
const LARGEST: usize = 8192;

/// Why a row has no answer.
#[derive(Clone, Copy)]
pub enum RowFault {
    /// Its word or its form is unknown.
    NoSuchRow,
    NoMemory,
}

impl From<NoMemory> for RowFault {
    fn from(_refused: NoMemory) -> RowFault {
        RowFault::NoMemory
    }
}

impl From<AllocError> for RowFault {
    fn from(_refused: AllocError) -> RowFault {
        RowFault::NoMemory
    }
}

/// The two parts of an argument.
pub fn two_parts<'a>(argument: &'a str, between: &str) -> Result<(&'a str, &'a str), RowFault> {
    match argument.split_once(between) {
        Some(parts) => Ok(parts),
        None => Err(RowFault::NoSuchRow),
    }
}

/// How many levels or bytes a word asks for.
pub fn count_of(word: &str) -> Result<usize, RowFault> {
    match word.parse::<usize>() {
        Ok(count) => Ok(count.min(LARGEST)),
        Err(_) => Err(RowFault::NoSuchRow),
    }
}

/// Puts a text into an answer; of a long one how many bytes it has.
pub fn show(out: &mut String, text: &str) -> Result<(), RowFault> {
    if text.len() > LONGEST {
        Ok(write!(out, "{} bytes", text.len())?)
    } else {
        Ok(out.push_str(text)?)
    }
}
