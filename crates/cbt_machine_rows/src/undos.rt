//! Rollbacks.

use crate::bench::{Bench, MOST_CALLS};
use crate::values::push_at;
use cbt_base::NoMemory;
use cbt_rollback::{Undo, UndoEnd};

/// Tells the calls of a rollback, its end, and what it leaves.
pub fn answer(bench: &mut Bench, told: &mut String) -> Result<(), NoMemory> {
    if bench.attempt.sent().is_none() {
        return Ok(told.push_str("not begun")?);
    }
    let mut undo = Undo::begin(bench.alloc, &bench.attempt)?;
    let done = roll_back(bench, told, &mut undo);
    drop(undo);
    done
}

fn roll_back(bench: &mut Bench, told: &mut String, undo: &mut Undo) -> Result<(), NoMemory> {
    for _ in 0..MOST_CALLS {
        if !turn(bench, undo)? {
            break;
        }
    }
    bench.push_calls(told)?;
    push_end(told, undo.end())?;
    bench.push_documents(told)
}

// Makes the next call; false where it has ended.
fn turn(bench: &mut Bench, undo: &mut Undo) -> Result<bool, NoMemory> {
    match undo.next(bench.alloc)? {
        None => Ok(false),
        Some(step) => {
            undo.learn(bench.call(step)?);
            Ok(true)
        }
    }
}

fn push_end(told: &mut String, end: Option<&UndoEnd>) -> Result<(), NoMemory> {
    match end {
        Some(UndoEnd::RolledBack) => Ok(told.push_str("rolled back")?),
        Some(UndoEnd::Incomplete { place }) => push_at(told, "incomplete", *place),
        None => Ok(told.push_str("not ended")?),
    }
}
