//! What is asked of a row, and its answer.

use crate::drives::{driven, written_order};
use crate::nodes::{calls, many_calls, reads_and_stages};
use crate::tables::table;
use crate::words::{cut, number};
use anyhow::Result;
use cbt_base::List;
use cbt_model::{Entry, EntryState, Lists, expired};
use std::alloc::Global;

/// The answer to a row.
pub fn answer(alloc: Global, row: &str) -> Result<String> {
    let (word, rest) = cut(row);
    match word {
        "table" => table(alloc, rest),
        "expired" => expiry(alloc, rest),
        "node" => calls(alloc, rest),
        "many_calls" => many_calls(alloc, rest),
        "reads_and_stages" => reads_and_stages(alloc),
        "drive" => driven(alloc, rest),
        "written_order" => {
            written_order();
            Ok("holds".to_string(alloc)?)
        }
        _ => Ok("no such row".to_string(alloc)?),
    }
}

// Whether an entry with this start and this time has expired at this now.
fn expiry(alloc: Global, text: &str) -> Result<String> {
    let (start, rest) = cut(text);
    let (exp, now) = cut(rest);
    let entry = Entry {
        state: EntryState::Pending,
        start: number(start).unwrap_or(0),
        exp: number(exp).unwrap_or(0),
        lists: Lists {
            ins: List::new(alloc),
            rep: List::new(alloc),
            rem: List::new(alloc),
        },
    };
    let expired = expired(&entry, number(now).unwrap_or(0));
    Ok(format!(in alloc; "{expired}")?)
}
