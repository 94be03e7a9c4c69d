//! Writes over what was read.

ghost use Rattle.std.specs.Prelude.{◌≤◌};

use crate::bench::{Bench, MOST_CALLS, own_attempt};
use crate::gets;
use crate::rows::part;
use crate::values::{document, push_at, target};
use cbt_attempt::Attempt;
use cbt_base::NoMemory;
use cbt_book::Seen;
use cbt_model::OpKind;
use cbt_read::{Get, GetEnd};
use cbt_stage::{Put, PutEnd};

/// Tells the calls of a write, its end, and what it leaves. The read before it is not told.
pub fn answer(
    bench: &mut Bench,
    told: &mut String,
    row: &str,
    kind: OpKind,
) -> Result<(), NoMemory> {
    match read(bench)? {
        Some(seen) => {
            let mut put = begin(bench, kind, seen)?;
            let done = write_over(bench, told, &mut put, part(row, "then"));
            drop(put);
            done
        }
        None => Ok(told.push_str("nothing was read")?),
    }
}

// What the attempt reads before it writes.
fn read(bench: &mut Bench) -> Result<Option<Seen>, NoMemory> {
    let mut get = Get::begin(document(bench.alloc, "a")?);
    let driven = gets::drive(bench, &mut get, "");
    bench.forget();
    let end = get.into_end();
    match driven {
        Ok(()) => Ok(seen_in(end)),
        Err(refused) => {
            drop(end);
            Err(refused)
        }
    }
}

fn seen_in(end: Option<GetEnd>) -> Option<Seen> {
    match end {
        Some(GetEnd::Value { seen }) => Some(seen),
        Some(GetEnd::Contended | GetEnd::CallFailed { .. }) | None => None,
    }
}

fn write_over(
    bench: &mut Bench,
    told: &mut String,
    put: &mut Put,
    then: &str,
) -> Result<(), NoMemory> {
    bench.make(then)?;
    drive(bench, put)?;
    bench.push_calls(told)?;
    push_end(told, put.end())?;
    bench.push_documents(told)
}

// The write by an attempt that knows no more than whether its entry was sent.
fn begin(bench: &Bench, kind: OpKind, seen: Seen) -> Result<Put, NoMemory> {
    match target(bench.alloc, kind) {
        Ok((doc, content)) => {
            let attempt = attempt_of(bench);
            let put = Put::begin(&attempt, doc, kind, content, seen);
            drop(attempt);
            Ok(put)
        }
        Err(refused) => {
            drop(seen);
            Err(refused)
        }
    }
}

fn attempt_of(bench: &Bench) -> Attempt
    ensures { (1 ≤ result.atrs) × (result.atrs ≤ 1024) }
{
    let mut attempt = own_attempt(bench.alloc);
    if let Some(atr) = bench.attempt.sent() {
        attempt.note_sent(atr);
    }
    attempt
}

fn drive(bench: &mut Bench, put: &mut Put) -> Result<(), NoMemory> {
    for _ in 0..MOST_CALLS {
        if !turn(bench, put)? {
            break;
        }
    }
    Ok(())
}

// Makes the next call; false where it has ended.
fn turn(bench: &mut Bench, put: &mut Put) -> Result<bool, NoMemory> {
    match put.next(bench.alloc)? {
        None => Ok(false),
        Some(step) => {
            put.learn(bench.call(step)?);
            Ok(true)
        }
    }
}

/// How a write ended.
pub fn push_end(told: &mut String, end: Option<&PutEnd>) -> Result<(), NoMemory> {
    match end {
        Some(PutEnd::Staged { place, .. }) => push_at(told, "staged", *place),
        Some(PutEnd::Unstaged { place }) => push_at(told, "taken back", *place),
        Some(PutEnd::Blocked { .. }) => Ok(told.push_str("blocked")?),
        Some(PutEnd::Moved) => Ok(told.push_str("moved")?),
        Some(PutEnd::CallFailed { place }) => push_at(told, "failed", *place),
        None => Ok(told.push_str("not ended")?),
    }
}
