//! Entries and the attribute `attempts`.

use crate::arguments::{RowFault, id, json, number, show, show_id, word};
use cbt_base::{DocId, Id, List};
use cbt_model::{Entry, EntryState, Lists, Reply, Step, fits};
use std::alloc::Global;

/// `read_attempts JSON`: of each entry the attempt, the state, the start, the expiry and the lists.
pub fn read_attempts(alloc: Global, out: &mut String, argument: &str) -> Result<(), RowFault> {
    match cbt_atr::read(alloc, &json(alloc, argument)?) {
        Ok(entries) => show_entries(alloc, out, entries.as_slice()),
        Err(fault) => Ok(write!(out, "{fault}")?),
    }
}

fn show_entries(alloc: Global, out: &mut String, entries: &[(Id, Entry)]) -> Result<(), RowFault> {
    write!(out, "{} entries", entries.len())?;
    for (id, entry) in entries {
        out.push_str("; ")?;
        show_id(alloc, out, *id)?;
        write!(
            out,
            " {} {} {}",
            state_word(entry.state),
            entry.start,
            entry.exp
        )?;
        show_docs(out, "ins", entry.lists.ins.as_slice())?;
        show_docs(out, "rep", entry.lists.rep.as_slice())?;
        show_docs(out, "rem", entry.lists.rem.as_slice())?;
    }
    Ok(())
}

fn show_docs(out: &mut String, name: &str, docs: &[DocId]) -> Result<(), RowFault> {
    for doc in docs {
        write!(out, " {name} {doc}")?;
    }
    Ok(())
}

fn state_word(state: EntryState) -> &'static str {
    match state {
        EntryState::Pending => "PENDING",
        EntryState::Committed => "COMMITTED",
        EntryState::Aborted => "ABORTED",
    }
}

/// `write_attempts` and entries with `;` between them, each `ATTEMPT STATE START EXP` and the documents
/// of its three lists, as `ins,a,b rep,c rem`.
pub fn write_attempts(alloc: Global, out: &mut String, argument: &str) -> Result<(), RowFault> {
    let mut entries = List::new(alloc);
    for part in argument.split(';') {
        entries.push(entry(alloc, part)?)?;
    }
    show_written(alloc, out, &Reply::Entries(entries))
}

fn entry(alloc: Global, argument: &str) -> Result<(Id, Entry), RowFault> {
    let (attempt, rest) = word(argument);
    let (state, rest) = word(rest);
    let (start, rest) = word(rest);
    let (exp, rest) = word(rest);
    let entry = Entry {
        state: state_of(state)?,
        start: number(start)?,
        exp: number(exp)?,
        lists: lists(alloc, rest)?,
    };
    Ok((id(attempt)?, entry))
}

fn lists(alloc: Global, argument: &str) -> Result<Lists, RowFault> {
    let (ins, rest) = word(argument);
    let (rep, rem) = word(rest);
    let ins = docs(alloc, ins)?;
    let rep = docs(alloc, rep)?;
    let rem = docs(alloc, rem)?;
    Ok(Lists { ins, rep, rem })
}

// The documents behind the name of a list.
fn docs(alloc: Global, argument: &str) -> Result<List<DocId>, RowFault> {
    let mut docs = List::new(alloc);
    for name in argument.split(',').skip(1) {
        docs.push(doc(alloc, name)?)?;
    }
    Ok(docs)
}

fn doc(alloc: Global, name: &str) -> Result<DocId, RowFault> {
    match DocId::new(alloc, name) {
        Ok(doc) => Ok(doc),
        Err(_) => Err(RowFault::NoSuchRow),
    }
}

fn state_of(word: &str) -> Result<EntryState, RowFault> {
    match word {
        "PENDING" => Ok(EntryState::Pending),
        "COMMITTED" => Ok(EntryState::Committed),
        "ABORTED" => Ok(EntryState::Aborted),
        _ => Err(RowFault::NoSuchRow),
    }
}

fn show_written(alloc: Global, out: &mut String, reply: &Reply) -> Result<(), RowFault> {
    if !fits(&Step::ReadAtr { atr: 0 }, reply) {
        return Err(RowFault::NoSuchRow);
    }
    let Reply::Entries(entries) = reply else {
        return Err(RowFault::NoSuchRow);
    };
    let json = cbt_atr::write(alloc, entries)?;
    show(alloc, out, &json)
}
