//! Writes over own writes.

ghost use Rattle.std.specs.Prelude.{◌≡◌, IsTrue};
ghost use Rattle.cbt_stage.specs.Rewrites.{needs_call, CanWriteAgain};

use crate::bench::Bench;
use crate::puts::push_end;
use crate::values::{WRITTEN, content, document};
use cbt_attempt::Attempt;
use cbt_base::{DocId, NoMemory};
use cbt_model::OpKind;
use cbt_stage::Again;

/// Tells the call of a write over an own write, its end, and what it leaves.
pub fn answer(bench: &mut Bench, told: &mut String, kind: OpKind) -> Result<(), NoMemory> {
    let doc = document(bench.alloc, "a")?;
    if can_write_again(&bench.attempt, &doc, kind) {
        return begin(bench, told, doc, kind);
    }
    drop(doc);
    Ok(told.push_str("not begun")?)
}

fn begin(bench: &mut Bench, told: &mut String, doc: DocId, kind: OpKind) -> Result<(), NoMemory>
    requires { CanWriteAgain bench.old.attempt doc kind }
{
    match content(bench.alloc, kind, WRITTEN) {
        Ok(content) => {
            let mut again = Again::begin(bench.alloc, &bench.attempt, doc, kind, content)?;
            let done = write_again(bench, told, &mut again);
            drop(again);
            done
        }
        Err(refused) => {
            drop(doc);
            Err(refused)
        }
    }
}

fn write_again(bench: &mut Bench, told: &mut String, again: &mut Again) -> Result<(), NoMemory> {
    turn(bench, again)?;
    bench.push_calls(told)?;
    push_end(told, again.end())?;
    bench.push_documents(told)
}

// Whether the entry was sent, and there is an own write, with its stamp, over which a write of this kind needs
// a call.
fn can_write_again(attempt: &Attempt, doc: &DocId, kind: OpKind) -> bool
    ensures { IsTrue result → CanWriteAgain attempt.now doc.now kind }
{
    let Some(own) = attempt.own(doc) else {
        return false;
    };
    let Some(_cas) = own.cas else {
        return false;
    };
    let Some(_atr) = attempt.sent() else {
        return false;
    };
    needs_call(kind, own.kind)
}

fn needs_call(kind: OpKind, own: OpKind) -> bool
    ensures { result ≡ needs_call kind own }
{
    match (kind, own) {
        (OpKind::Insert, OpKind::Remove) => true,
        (OpKind::Insert, _) | (OpKind::Replace | OpKind::Remove, OpKind::Remove) => false,
        (OpKind::Replace | OpKind::Remove, _) => true,
    }
}

// Makes the one call.
fn turn(bench: &mut Bench, again: &mut Again) -> Result<(), NoMemory> {
    if let Some(step) = again.next(bench.alloc)? {
        again.learn(bench.call(step)?);
    }
    Ok(())
}
