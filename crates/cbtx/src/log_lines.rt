//! The logs of clients in one line: each transaction by its client's number and its own, as `2.1:`, each of
//! its tries by the places of its calls, as `3-9`, and each operation that the try tells of by its number
//! and its places, as `(1 3-5)`.

use cbt_base::List;
use cbt_book::{AttemptLog, ClientLog, Span};
use std::alloc::{AllocError, Global};

/// The logs of all clients.
pub fn logged(alloc: Global, clients: &List<ClientLog>) -> Result<String, AllocError> {
    let mut told = "logs".to_string(alloc)?;
    for (at, log) in clients.iter().enumerate() {
        push_log(&mut told, at.saturating_add(1), log)?;
    }
    Ok(told)
}

fn push_log(told: &mut String, client: usize, log: &ClientLog) -> Result<(), AllocError> {
    for (at, txn) in log.txns.iter().enumerate() {
        let number = at.saturating_add(1);
        write!(told, " {client}.{number}:")?;
        for attempt in txn.attempts.iter() {
            push_attempt(told, attempt)?;
        }
    }
    Ok(())
}

fn push_attempt(told: &mut String, log: &AttemptLog) -> Result<(), AllocError> {
    told.push(' ')?;
    push_span(told, log.span)?;
    for op in log.ops.iter() {
        let number = op.op;
        write!(told, " ({number} ")?;
        push_span(told, op.span)?;
        told.push(')')?;
    }
    Ok(())
}

fn push_span(told: &mut String, span: Span) -> Result<(), AllocError> {
    let Span { from, to } = span;
    write!(told, "{from}-{to}")
}
