//! What a write comes to, and what an attempt notes of it.

ghost use Rattle.std.specs.Prelude.{◌≡◌, OnOk, OnErr};
ghost use Rattle.cbt_core.specs.Operations.{is_good};
ghost use Rattle.cbt_stage.specs.Phases.{end_of};
ghost use Rattle.cbt_txn.specs.Works.{answer_of, put_noted, stamp_in, written};

use cbt_attempt::{Attempt, Own};
use cbt_base::{DocId, NoMemory};
use cbt_book::OpAnswer;
use cbt_model::Reply;
use cbt_stage::{Again, Put, PutEnd};

// The answer of a write that has ended so.
pub(crate) fn answer_of(end: PutEnd) -> OpAnswer
    ensures { result ≡ answer_of end }
{
    match end {
        PutEnd::Staged { place, base } => OpAnswer::Staged { place, base },
        PutEnd::Unstaged { place } => OpAnswer::Unstaged { place },
        PutEnd::Blocked { by } => OpAnswer::Blocked { by },
        PutEnd::Moved => OpAnswer::Moved,
        PutEnd::CallFailed { place } => OpAnswer::CallFailed { place },
    }
}

// Whether an attempt goes on after this answer.
pub(crate) fn is_good(answer: &OpAnswer) -> bool
    ensures { result ≡ is_good answer.now }
{
    matches!(
        answer,
        OpAnswer::Value { .. }
            | OpAnswer::Staged { .. }
            | OpAnswer::Unstaged { .. }
            | OpAnswer::Holds
    )
}

// The stamp that a call was answered with.
pub(crate) fn stamp_in(reply: &Reply) -> Option<u64>
    ensures { result ≡ stamp_in reply.now }
{
    match reply {
        Reply::Done { cas } => Some(*cas),
        _ => None,
    }
}

// The attempt notes what became of a write: it is staged with this stamp, or taken back, or nobody knows
// since the call failed. Where the document had changed nothing is noted.
pub(crate) fn note_write(
    attempt: &mut Attempt,
    doc: DocId,
    write: Own,
    end: &PutEnd,
    stamp: Option<u64>,
) -> Result<(), NoMemory>
    ensures ok { OnOk result (attempt.new ≡ written attempt.old doc write end.now stamp) }
    ensures err { OnErr result (attempt.new ≡ attempt.old) }
{
    match end {
        PutEnd::Staged { .. } => {
            let Own { kind, content, .. } = write;
            attempt.note_staged(
                doc,
                Own {
                    kind,
                    content,
                    cas: stamp,
                },
            )
        }
        PutEnd::Unstaged { .. } => {
            attempt.note_unstaged(&doc);
            Ok(())
        }
        PutEnd::CallFailed { .. } => attempt.note_staged(doc, write),
        PutEnd::Blocked { .. } | PutEnd::Moved => Ok(()),
    }
}

// The attempt notes what became of a put, where its last call staged.
pub(crate) fn note_put(
    attempt: &mut Attempt,
    put: Put,
    staging: bool,
    end: &PutEnd,
    stamp: Option<u64>,
) -> Result<(), NoMemory>
    ensures ok { OnOk result (attempt.new ≡ put_noted attempt.old put.task staging end.now stamp) }
    ensures err { OnErr result (attempt.new ≡ attempt.old) }
{
    if !staging {
        return Ok(());
    }
    let (doc, write) = put.take_write();
    note_write(attempt, doc, write, end, stamp)
}

// How a put has ended.
pub(crate) fn end_of_put(put: &Put) -> Option<PutEnd>
    ensures { result ≡ end_of put.now }
{
    put.end().copied()
}

// How a write over an own write has ended.
pub(crate) fn end_of_again(again: &Again) -> Option<PutEnd>
    ensures { result ≡ again.now.end }
{
    again.end().copied()
}
