//! Identifiers of documents, attempts, transactions and cleaners.

use crate::arguments::{RowFault, number};
use cbt_base::{DocId, Id, atr_of};
use std::alloc::Global;

/// The most records that documents are spread over.
const MOST_RECORDS: u16 = 1024;

/// The longest text that a row makes.
const LONGEST: usize = 4096;

/// `doc_id "TEXT"`
pub fn doc_id(alloc: Global, out: &mut String, text: &str) -> Result<(), RowFault> {
    match DocId::new(alloc, text) {
        Ok(id) => write!(out, "{id}")?,
        Err(fault) => write!(out, "{fault}")?,
    }
    Ok(())
}

/// `long_doc_id COUNT`: a text of so many bytes `x`.
pub fn long_doc_id(alloc: Global, out: &mut String, arguments: &[&str]) -> Result<(), RowFault> {
    let [count] = arguments else {
        return Err(RowFault::NoSuchRow);
    };
    let count = number::<usize>(count)?.min(LONGEST);
    let text = "x".repeat(alloc, count)?;
    match DocId::new(alloc, &text) {
        Ok(id) => write!(out, "{} bytes", id.as_bytes().len())?,
        Err(fault) => write!(out, "{fault}")?,
    }
    Ok(())
}

/// `atr DOC COUNT`: the record of a document, of so many.
pub fn atr(alloc: Global, out: &mut String, arguments: &[&str]) -> Result<(), RowFault> {
    let [text, count] = arguments else {
        return Err(RowFault::NoSuchRow);
    };
    let count = number::<u16>(count)?;
    if count == 0 || count > MOST_RECORDS {
        return Err(RowFault::NoSuchRow);
    }
    match DocId::new(alloc, text) {
        Ok(id) => write!(out, "{}", atr_of(&id, count))?,
        Err(fault) => write!(out, "{fault}")?,
    }
    Ok(())
}

/// `attempt CLIENT TXN TRY`: the attempt, and its transaction.
pub fn attempt(alloc: Global, out: &mut String, arguments: &[&str]) -> Result<(), RowFault> {
    let [client, txn, try_no] = arguments else {
        return Err(RowFault::NoSuchRow);
    };
    let client = number::<u32>(client)?;
    let txn = number::<u16>(txn)?;
    let try_no = number::<u32>(try_no)?;
    if client == 0 || txn == 0 || try_no == 0 {
        return Err(RowFault::NoSuchRow);
    }
    let attempt = Id::attempt(client, txn, try_no);
    show(alloc, out, attempt)?;
    out.push_str(" of ")?;
    show(alloc, out, Id::txn_of(attempt))
}

/// `cleaner NUMBER`
pub fn cleaner(alloc: Global, out: &mut String, arguments: &[&str]) -> Result<(), RowFault> {
    let [cleaner] = arguments else {
        return Err(RowFault::NoSuchRow);
    };
    let cleaner = number::<u32>(cleaner)?;
    if cleaner == 0 {
        return Err(RowFault::NoSuchRow);
    }
    show(alloc, out, Id::cleaner(cleaner))
}

/// `read_id TEXT`
pub fn read_id(alloc: Global, out: &mut String, arguments: &[&str]) -> Result<(), RowFault> {
    let [text] = arguments else {
        return Err(RowFault::NoSuchRow);
    };
    match Id::read(text) {
        Some(id) => show(alloc, out, id),
        None => Ok(out.push_str("none")?),
    }
}

// The number of an identifier, in hexadecimal, and its text.
fn show(alloc: Global, out: &mut String, id: Id) -> Result<(), RowFault> {
    let number = id.number();
    let text = id.text(alloc)?;
    Ok(write!(out, "{number:#034x} {text}")?)
}
