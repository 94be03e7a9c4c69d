//! What an operation does first.

ghost use Rattle.std.specs.Prelude.{◌≡◌, ◌≢◌, [], true, IsTrue, IfOk};
ghost use Rattle.cbt_core.specs.OpAnswers.{agrees};
ghost use Rattle.cbt_core.specs.Walk.{Request, content_of, request_of};
ghost use Rattle.cbt_expr.specs.Answers.{bound_in};
ghost use Rattle.cbt_expr.specs.Values.{truth_of, value_of};
ghost use Rattle.cbt_model.specs.Fitting.{content_fits};
ghost use Rattle.cbt_stage.specs.Rewrites.{needs_call};
ghost use Rattle.cbt_txn.specs.Starts.{over_own, refusal, started, tested, write_first};

use cbt_attempt::{Attempt, Own};
use cbt_base::{DocId, Duplicate, Map, NoMemory, Text};
use cbt_book::{OpAnswer, Seen, When};
use cbt_expr::{Cond, EvalFault, Expr, Op, eval, holds};
use cbt_json::Json;
use cbt_model::OpKind;
use std::alloc::Global;

/// What an operation does first.
#[derive(Drop)]
pub enum Start {
    /// It has this answer without a call.
    Answered { answer: OpAnswer },
    Calls { beginning: Beginning },
}

/// With which calls an operation begins. What is written has no stamp yet.
#[derive(Drop)]
pub enum Beginning {
    /// A get reads its document.
    Get { doc: DocId },
    /// A write reads its document first.
    Read { doc: DocId, write: Own },
    /// A write stands on what the attempt read last of its document.
    Put { doc: DocId, write: Own, seen: Seen },
    /// A write is made over the attempt's own write.
    Again { doc: DocId, write: Own },
}

/// What an operation does first, over what the attempt has noted and its gets have bound. It is an error
/// where there is no memory for what it takes along.
pub(crate) fn start_op(
    alloc: Global,
    op: &Op,
    attempt: &Attempt,
    bound: &Map<Text, Option<Json>>,
) -> Result<Start, NoMemory>
    ensures { IfOk result (λ start. start ≡ started attempt.now (request_of (bound_in bound.now) op.now)) }
{
    match op {
        Op::Get { doc, .. } => start_get(alloc, attempt, doc),
        Op::Insert { doc, value } => {
            start_value(alloc, attempt, bound, doc, OpKind::Insert, value)
        }
        Op::Replace { doc, value } => {
            start_value(alloc, attempt, bound, doc, OpKind::Replace, value)
        }
        Op::Remove { doc } => start_write(alloc, attempt, doc, OpKind::Remove, None),
        Op::Need { cond } => start_test(alloc, bound, cond),
    }
}

// A get is answered by the own write, where there is one.
fn start_get(alloc: Global, attempt: &Attempt, doc: &DocId) -> Result<Start, NoMemory>
    ensures { IfOk result (λ start. start ≡ started attempt.now (Request.Reads doc.now [])) }
{
    match attempt.own(doc) {
        Some(own) => {
            let value = own.content.copy(alloc)?;
            Ok(Start::Answered {
                answer: OpAnswer::Value {
                    value,
                    when: When::Own,
                },
            })
        }
        None => {
            let doc = doc.copy(alloc)?;
            Ok(Start::Calls {
                beginning: Beginning::Get { doc },
            })
        }
    }
}

// A write of what an expression is worth.
fn start_value(
    alloc: Global,
    attempt: &Attempt,
    bound: &Map<Text, Option<Json>>,
    doc: &DocId,
    kind: OpKind,
    value: &Expr,
) -> Result<Start, NoMemory>
    requires { kind ≢ OpKind.Remove }
    ensures { IfOk result (λ start. start
        ≡ started attempt.now (Request.Writes doc.now kind (content_of (value_of (bound_in bound.now) value.now)))) }
{
    match eval(alloc, value, bound) {
        Ok(content) => start_write(alloc, attempt, doc, kind, Some(content)),
        Err(EvalFault::BadValue { part }) => Ok(bad_value(part)),
        Err(EvalFault::NoMemory) => Err(NoMemory),
    }
}

// A write of this content, which is missing exactly for a remove.
fn start_write(
    alloc: Global,
    attempt: &Attempt,
    doc: &DocId,
    kind: OpKind,
    content: Option<Json>,
) -> Result<Start, NoMemory>
    requires { content_fits kind content ≡ true }
    ensures { IfOk result (λ start. start ≡ write_first attempt.now doc.now kind content) }
{
    let write = Own {
        kind,
        content,
        cas: None,
    };
    let doc = doc.copy(alloc)?;
    if let Some(own) = attempt.own(&doc) {
        return Ok(over_own(attempt, own, doc, write));
    }
    if let Some(seen) = attempt.seen(&doc) {
        if agrees(kind, &seen.value) {
            let seen = seen.copy(alloc)?;
            return Ok(Start::Calls {
                beginning: Beginning::Put { doc, write, seen },
            });
        }
    }
    Ok(Start::Calls {
        beginning: Beginning::Read { doc, write },
    })
}

// A write over an own write. That has a stamp while operations go on, and the entry was sent before it.
fn over_own(attempt: &Attempt, own: &Own, doc: DocId, write: Own) -> Start
    ensures { result ≡ over_own attempt.now own.now doc write }
{
    if !needs_call(write.kind, own.kind) {
        return Start::Answered {
            answer: refusal(write.kind, When::Own),
        };
    }
    if attempt.sent().is_some() && own.cas.is_some() {
        return Start::Calls {
            beginning: Beginning::Again { doc, write },
        };
    }
    Start::Answered {
        answer: OpAnswer::Moved,
    }
}

// A test goes on where its condition holds.
fn start_test(
    alloc: Global,
    bound: &Map<Text, Option<Json>>,
    cond: &Cond,
) -> Result<Start, NoMemory>
    ensures { IfOk result (λ start. start ≡ tested (truth_of (bound_in bound.now) cond.now)) }
{
    let answer = match holds(alloc, cond, bound) {
        Ok(true) => OpAnswer::Holds,
        Ok(false) => OpAnswer::NeedFalse,
        Err(EvalFault::BadValue { part }) => OpAnswer::BadValue { part },
        Err(EvalFault::NoMemory) => return Err(NoMemory),
    };
    Ok(Start::Answered { answer })
}

// A part of the expression has no value.
fn bad_value(part: u32) -> Start
    ensures { result ≡ Start.Answered (OpAnswer.BadValue part) }
{
    Start::Answered {
        answer: OpAnswer::BadValue { part },
    }
}

// Whether a write agrees with what was read: an insert wants no value, a replace and a remove want one.
pub(crate) fn agrees(kind: OpKind, value: &Option<Json>) -> bool
    ensures { result ≡ agrees kind value.now }
{
    match kind {
        OpKind::Insert => value.is_none(),
        OpKind::Replace | OpKind::Remove => value.is_some(),
    }
}

// What a write is answered that does not agree with what is there: an insert finds a document, and the
// others find none.
pub(crate) fn refusal(kind: OpKind, when: When) -> OpAnswer
    ensures { result ≡ refusal kind when }
{
    match kind {
        OpKind::Insert => OpAnswer::DocExists { when },
        OpKind::Replace | OpKind::Remove => OpAnswer::DocNotFound { when },
    }
}

// Whether a write of this kind over an own write of that one needs a call. Else it finds the document
// there, or finds none.
fn needs_call(kind: OpKind, own: OpKind) -> bool
    ensures { result ≡ needs_call kind own }
{
    match kind {
        OpKind::Insert => own == OpKind::Remove,
        OpKind::Replace | OpKind::Remove => own != OpKind::Remove,
    }
}
