//! Reads.

use crate::bench::{Bench, MOST_CALLS};
use crate::rows::part;
use crate::values::{document, push_at, push_value};
use cbt_base::NoMemory;
use cbt_book::Seen;
use cbt_read::{Get, GetEnd, Phase};
use std::alloc::Global;

/// Tells the calls of a read and its end.
pub fn answer(bench: &mut Bench, told: &mut String, row: &str) -> Result<(), NoMemory> {
    let mut get = Get::begin(document(bench.alloc, "a")?);
    let done = read(bench, told, &mut get, part(row, "then"));
    drop(get);
    done
}

fn read(bench: &mut Bench, told: &mut String, get: &mut Get, then: &str) -> Result<(), NoMemory> {
    drive(bench, get, then)?;
    bench.push_calls(told)?;
    push_end(told, bench.alloc, get.end())
}

/// Reads the document; before each further reading of it other calls are made.
pub fn drive(bench: &mut Bench, get: &mut Get, then: &str) -> Result<(), NoMemory> {
    for _ in 0..MOST_CALLS {
        if matches!(&get.phase, Phase::Again { .. }) {
            bench.make(then)?;
        }
        if !turn(bench, get)? {
            break;
        }
    }
    Ok(())
}

// Makes the next call; false where it has ended.
fn turn(bench: &mut Bench, get: &mut Get) -> Result<bool, NoMemory> {
    match get.next(bench.alloc)? {
        None => Ok(false),
        Some(step) => {
            get.learn(bench.call(step)?);
            Ok(true)
        }
    }
}

fn push_end(told: &mut String, alloc: Global, end: Option<&GetEnd>) -> Result<(), NoMemory> {
    match end {
        Some(GetEnd::Value { seen }) => push_seen(told, alloc, seen),
        Some(GetEnd::Contended) => Ok(told.push_str("contended")?),
        Some(GetEnd::CallFailed { place }) => push_at(told, "failed", *place),
        None => Ok(told.push_str("not ended")?),
    }
}

fn push_seen(told: &mut String, alloc: Global, seen: &Seen) -> Result<(), NoMemory> {
    push_value(told, alloc, seen.value.as_ref())?;
    push_at(told, "", seen.moment)?;
    if seen.gone {
        told.push_str(", gone")?;
    }
    Ok(())
}
