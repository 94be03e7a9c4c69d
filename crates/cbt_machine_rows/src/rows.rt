//! What is asked of a row, and its answer.
//!
//! A row has the machine that is driven, and behind commas its scene, each part behind a word:
//! `before` and `then` are calls of others and own ones by their letters (`bench.rt`), and `lost` and
//! `late` the number of an own call that fails.

use crate::bench::Bench;
use crate::values::kind_of;
use crate::{agains, finishes, gets, puts, tries, undos};
use cbt_base::NoMemory;
use std::alloc::Global;

/// Tells the answer to a row, as `get, before SPAS`.
pub fn answer(alloc: Global, told: &mut String, row: &str) -> Result<(), NoMemory> {
    let mut bench = Bench::new(alloc, row)?;
    let done = answer_on(&mut bench, told, row);
    drop(bench);
    done
}

fn answer_on(bench: &mut Bench, told: &mut String, row: &str) -> Result<(), NoMemory> {
    bench.make(part(row, "before"))?;
    let (machine, _) = row.split_once(',').unwrap_or((row, ""));
    let (machine, kind) = machine.split_once(' ').unwrap_or((machine, ""));
    match machine {
        "get" => gets::answer(bench, told, row),
        "put" => puts::answer(bench, told, row, kind_of(kind)),
        "again" => agains::answer(bench, told, kind_of(kind)),
        "undo" => undos::answer(bench, told),
        "finish" => finishes::answer(bench, told, row),
        "try" => tries::answer(bench, told, row),
        _ => Ok(told.push_str("no such row")?),
    }
}

/// The part of a row behind a word; empty where it has none.
pub fn part<'a>(row: &'a str, word: &str) -> &'a str {
    for part in row.split(", ") {
        if let Some((first, rest)) = part.split_once(' ') {
            if first == word {
                return rest;
            }
        }
    }
    ""
}
