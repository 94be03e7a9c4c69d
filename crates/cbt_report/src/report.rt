//! The report on a run.

ghost use Rattle.std.specs.Prelude.{◌≡◌, ◌+◌, ◌-◌, ◌^◌, ◌≤◌, ◌++◌, length, IfOk, OnOk};
ghost use Rattle.cbt_base.specs.Clock.{clock_of};
ghost use Rattle.cbt_model.specs.View.{view};
ghost use Rattle.cbt_report.specs.Report.{txn_line, txn_lines, client_lines, doc_line, doc_lines, is_held, is_dead, staged_count, dead_count, count_lines, state_lines, report_text};

use crate::cleaners::push_cleaners;
use crate::lines::push_number_line;
use crate::outcomes::outcome;
use crate::replay::end_of;
use cbt_base::{DocId, NoMemory, Text};
use cbt_book::{Book, ClientLog, TxnEnd, TxnLog};
use cbt_expr::ClientPlan;
use cbt_lex::push_number;
use cbt_model::{Stage, State, view};
use cbt_script::Script;
use std::alloc::Global;

/// The report on a run: how many events and commits it had, each transaction that was begun with its
/// outcome, each cleaner with its rounds, each document with what it resolves to at the end, and what is
/// left staged.
///
/// It fails only where memory runs out.
pub fn report_of(alloc: Global, script: &Script, book: &Book) -> Result<Text, NoMemory>
    requires last { book.now.kept.opening.last ≤ clock_of (2 ^ 43 - 1) + 2 ^ 32 }
    requires short { length book.now.kept.history ≤ 2 ^ 62 }
    ensures text { IfOk result (λ text. text ≡ report_text script.now book.now) }
{
    let end = end_of(alloc, &book.kept)?;
    let mut out = Text::from_str(alloc, "")?;
    push_number_line(&mut out, "history", book.kept.history.len() as u64)?;
    push_number_line(&mut out, "committed", end.commits)?;
    push_clients(&mut out, script.clients.as_slice(), book.clients.as_slice())?;
    push_cleaners(
        &mut out,
        script.cleaners.as_slice(),
        book.cleaners.as_slice(),
    )?;
    push_state(alloc, &mut out, &end.state)?;
    Ok(out)
}

// The transactions of the clients, which stand in the same order as their logs.
fn push_clients(
    out: &mut Text,
    clients: &[(Text, ClientPlan)],
    logs: &[ClientLog],
) -> Result<(), NoMemory>
    ensures { OnOk result (out.new ≡ out.old ++ client_lines clients.now logs.now) }
{
    for k in 0..clients.len().min(logs.len()) {
        push_txns(out, clients[k].0.as_str(), logs[k].txns.as_slice())?;
    }
    Ok(())
}

// A client's transactions, each with its outcome.
fn push_txns(out: &mut Text, name: &str, txns: &[TxnLog]) -> Result<(), NoMemory>
    ensures { OnOk result (out.new ≡ out.old ++ txn_lines name.now 1 txns.now) }
{
    for k in 0..txns.len() {
        push_txn(out, name, k as u64 + 1, txns[k].end)?;
    }
    Ok(())
}

// A transaction with its outcome.
fn push_txn(out: &mut Text, name: &str, i: u64, end: TxnEnd) -> Result<(), NoMemory>
    ensures { OnOk result (out.new ≡ out.old ++ txn_line name.now i end) }
{
    out.push_str("txn ")?;
    out.push_str(name)?;
    out.push_str(" ")?;
    push_number(out, i)?;
    out.push_str(" ")?;
    out.push_str(outcome(end))?;
    out.push_str("\n")
}

// What the state holds at the end.
fn push_state(alloc: Global, out: &mut Text, state: &State) -> Result<(), NoMemory>
    ensures { OnOk result (out.new ≡ out.old ++ state_lines state.now) }
{
    push_docs(alloc, out, state)?;
    push_counts(out, state)
}

/// Puts lines at the end on what the state holds that is not settled.
pub(crate) fn push_counts(out: &mut Text, state: &State) -> Result<(), NoMemory>
    ensures { OnOk result (out.new ≡ out.old ++ count_lines state.now) }
{
    push_number_line(out, "staged", held_docs(state) as u64)?;
    push_number_line(out, "dead", dead_docs(state) as u64)?;
    push_number_line(out, "entries", state.entries.len() as u64)
}

// The documents that resolve to something.
fn push_docs(alloc: Global, out: &mut Text, state: &State) -> Result<(), NoMemory>
    ensures { OnOk result (out.new ≡ out.old ++ doc_lines state.now state.now.docs) }
{
    for (id, _) in state.docs.iter() {
        push_doc(alloc, out, state, id)?;
    }
    Ok(())
}

// A document with what it resolves to, where there is something.
fn push_doc(alloc: Global, out: &mut Text, state: &State, id: &DocId) -> Result<(), NoMemory>
    ensures { OnOk result (out.new ≡ out.old ++ doc_line id.now (view state.now id.now)) }
{
    if let Some(body) = view(state, id) {
        let text = body.text(alloc)?;
        out.push_str("doc ")?;
        out.push_str(id.as_str())?;
        out.push_str(" ")?;
        out.push_str(text.as_str())?;
        out.push_str("\n")?;
    }
    Ok(())
}

// How many documents are staged by an attempt whose entry is there.
fn held_docs(state: &State) -> usize
    ensures { result ≡ staged_count state.now state.now.docs }
{
    state
        .docs
        .iter()
        .filter(|pair| is_held(state, &pair.1.stage))
        .count()
}

// How many documents are staged by an attempt without an entry.
fn dead_docs(state: &State) -> usize
    ensures { result ≡ dead_count state.now state.now.docs }
{
    state
        .docs
        .iter()
        .filter(|pair| is_dead(state, &pair.1.stage))
        .count()
}

fn is_held(state: &State, stage: &Option<Stage>) -> bool
    ensures { result ≡ is_held state.now stage.now }
{
    match stage {
        Some(stage) => state.entries.contains_key(&(stage.atr, stage.attempt)),
        None => false,
    }
}

fn is_dead(state: &State, stage: &Option<Stage>) -> bool
    ensures { result ≡ is_dead state.now stage.now }
{
    match stage {
        Some(stage) => !state.entries.contains_key(&(stage.atr, stage.attempt)),
        None => false,
    }
}
