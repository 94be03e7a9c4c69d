//! Words of a row, parted by one space, and what they stand for.

use cbt_base::{DocId, Id};
use cbt_json::Json;
use std::alloc::Global;

/// The first word and the rest, which is empty where there is none.
pub fn cut(text: &str) -> (&str, &str) {
    text.split_once(' ').unwrap_or((text, ""))
}

/// A whole number.
pub fn number(word: &str) -> Option<u64> {
    word.parse::<u64>().ok()
}

/// A number of an actor; 0 where it is none.
pub fn actor(word: &str) -> u32 {
    word.parse::<u32>().unwrap_or(0)
}

/// A number of a transaction record.
pub fn record(word: &str) -> Option<u16> {
    word.parse::<u16>().ok()
}

/// The attempt of a client and its try, as `1/2`. Its transaction is the first.
pub fn attempt(word: &str) -> Option<Id> {
    let (client, try_no) = word.split_once('/')?;
    let client = client.parse::<u32>().ok()?;
    let try_no = try_no.parse::<u32>().ok()?;
    if client >= 1 && try_no >= 1 {
        Some(Id::attempt(client, 1, try_no))
    } else {
        None
    }
}

/// A cleaner by its number.
pub fn cleaner(word: &str) -> Option<Id> {
    let number = word.parse::<u32>().ok()?;
    if number >= 1 {
        Some(Id::cleaner(number))
    } else {
        None
    }
}

/// A document's identifier.
pub fn document(alloc: Global, word: &str) -> Option<DocId> {
    DocId::new(alloc, word).ok()
}

/// A JSON value without spaces.
pub fn json(alloc: Global, word: &str) -> Option<Json> {
    Json::read(alloc, word.as_bytes()).ok()
}
