//! The arguments of a row.

use cbt_base::{List, NoMemory};
use std::alloc::{AllocError, Global};
use std::str::FromStr;

/// Why a row has no answer.
#[derive(Clone, Copy)]
pub enum RowFault {
    /// Its word or its form is unknown.
    NoSuchRow,
    NoMemory,
}

impl From<NoMemory> for RowFault {
    fn from(_refused: NoMemory) -> RowFault {
        RowFault::NoMemory
    }
}

impl From<AllocError> for RowFault {
    fn from(_refused: AllocError) -> RowFault {
        RowFault::NoMemory
    }
}

/// The number that a word is.
pub fn number<N: FromStr>(word: &str) -> Result<N, RowFault>
where
    N::Err: Drop,
{
    match word.parse::<N>() {
        Ok(number) => Ok(number),
        Err(_) => Err(RowFault::NoSuchRow),
    }
}

/// Numbers parted by commas; `-` for none.
pub fn numbers(alloc: Global, word: &str) -> Result<List<u64>, RowFault> {
    let mut numbers = List::new(alloc);
    if word == "-" {
        return Ok(numbers);
    }
    for part in word.split(',') {
        numbers.push(number(part)?)?;
    }
    Ok(numbers)
}

/// The text between two double quotes, in which `\n`, `\r` and `\t` stand for a line feed, a carriage
/// return and a tab.
pub fn quoted(alloc: Global, argument: &str) -> Result<String, RowFault> {
    let Some((_, rest)) = argument.split_once('"') else {
        return Err(RowFault::NoSuchRow);
    };
    let Some(inside) = rest.strip_suffix('"') else {
        return Err(RowFault::NoSuchRow);
    };
    let mut text = String::new(alloc);
    let mut is_escaped = false;
    for c in inside.chars() {
        if is_escaped || c != '\\' {
            text.push(if is_escaped { escaped(c) } else { c })?;
        }
        is_escaped = c == '\\' && !is_escaped;
    }
    Ok(text)
}

fn escaped(c: char) -> char {
    match c {
        'n' => '\n',
        'r' => '\r',
        't' => '\t',
        other => other,
    }
}
