//! Commits.

use crate::bench::{Bench, MOST_CALLS};
use crate::rows::part;
use crate::values::push_at;
use cbt_attempt::Attempt;
use cbt_base::NoMemory;
use cbt_commit::{Finish, FinishEnd, Phase};

/// Tells the calls of a commit, its end, and what it leaves.
pub fn answer(bench: &mut Bench, told: &mut String, row: &str) -> Result<(), NoMemory> {
    if bench.attempt.sent().is_none() || !knows_stamps(&bench.attempt) {
        return Ok(told.push_str("not begun")?);
    }
    let mut finish = Finish::begin(bench.alloc, &bench.attempt)?;
    let done = commit(bench, told, &mut finish, part(row, "then"));
    drop(finish);
    done
}

// Whether the stamp of each own write is known. A row has at most three of them.
fn knows_stamps(attempt: &Attempt) -> bool {
    for at in 0..3 {
        if let Some((_, own)) = attempt.write_at(at) {
            if own.cas.is_none() {
                return false;
            }
        }
    }
    true
}

fn commit(
    bench: &mut Bench,
    told: &mut String,
    finish: &mut Finish,
    then: &str,
) -> Result<(), NoMemory> {
    drive(bench, finish, then)?;
    bench.push_calls(told)?;
    push_end(told, finish.end())?;
    bench.push_documents(told)
}

// Before each reading of the entry other calls are made.
fn drive(bench: &mut Bench, finish: &mut Finish, then: &str) -> Result<(), NoMemory> {
    for _ in 0..MOST_CALLS {
        if matches!(&finish.phase, Phase::Reading { .. }) {
            bench.make(then)?;
        }
        if !turn(bench, finish)? {
            break;
        }
    }
    Ok(())
}

// Makes the next call; false where it has ended.
fn turn(bench: &mut Bench, finish: &mut Finish) -> Result<bool, NoMemory> {
    match finish.next(bench.alloc)? {
        None => Ok(false),
        Some(step) => {
            finish.learn(bench.call(step)?);
            Ok(true)
        }
    }
}

fn push_end(told: &mut String, end: Option<&FinishEnd>) -> Result<(), NoMemory> {
    match end {
        Some(FinishEnd::Committed { place, complete }) => push_committed(told, *place, *complete),
        Some(FinishEnd::EntryLost { place }) => push_at(told, "entry lost", *place),
        Some(FinishEnd::NotCommitted { place }) => push_at(told, "not committed", *place),
        Some(FinishEnd::Unknown { commit, read }) => push_unknown(told, *commit, *read),
        None => Ok(told.push_str("not ended")?),
    }
}

fn push_committed(told: &mut String, place: u64, complete: bool) -> Result<(), NoMemory> {
    push_at(told, "committed", place)?;
    let rest = if complete { "" } else { ", incomplete" };
    Ok(told.push_str(rest)?)
}

fn push_unknown(told: &mut String, commit: u64, read: u64) -> Result<(), NoMemory> {
    push_at(told, "unknown, commit", commit)?;
    push_at(told, ", reading", read)
}
