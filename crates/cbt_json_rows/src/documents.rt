//! Calls on documents.

ghost use Rattle.std.specs.Prelude.{◌↔◌, All, IsTrue};
ghost use Rattle.cbt_subdoc.specs.Fits.{mut_fits};

use crate::arguments::{RowFault, json, number, show, two_parts};
use crate::looks::{MOST_LOOKS, looks_of, path_of, show_answers};
use cbt_base::{Duplicate, List};
use cbt_doc::{BodyChange, Doc, DocCall, DocExpect, DocMut, change_doc, look_doc};
use cbt_json::Json;
use cbt_subdoc::{Look, Mut, MutOp, MutValue, mut_fits};
use std::alloc::Global;

/// `call CAS | SLOT | EXPECT | BODY | PATHS`: the document afterwards, behind the fault where there is
/// one.
pub fn call(alloc: Global, out: &mut String, argument: &str) -> Result<(), RowFault> {
    let parts: Vec<&str> = argument.split(" | ").collect(alloc)?;
    let [cas, slot, expect, body, paths] = parts.as_slice() else {
        return Err(RowFault::NoSuchRow);
    };
    let cas = number::<u64>(cas)?;
    let call = call_of(alloc, expect, body, paths)?;
    let mut slot = copy_of(alloc, slot)?;
    make(alloc, out, cas, &mut slot, &call)
}

fn call_of(alloc: Global, expect: &str, body: &str, paths: &str) -> Result<DocCall, RowFault> {
    let expect = expect_of(expect)?;
    let body = body_of(alloc, body)?;
    let changes = changes_of(alloc, paths)?;
    Ok(DocCall {
        expect,
        changes,
        body,
    })
}

fn copy_of(alloc: Global, slot: &str) -> Result<Option<Doc>, RowFault> {
    let slot = doc_of(alloc, slot)?;
    Ok(slot.copy(alloc)?)
}

fn make(
    alloc: Global,
    out: &mut String,
    cas: u64,
    slot: &mut Option<Doc>,
    call: &DocCall,
) -> Result<(), RowFault> {
    if !all_fit(call.changes.as_slice()) {
        return Err(RowFault::NoSuchRow);
    }
    if let Err(fault) = change_doc(alloc, slot, call, cas) {
        write!(out, "{fault}; ")?;
    }
    show_slot(alloc, out, slot)
}

fn all_fit(changes: &[DocMut]) -> bool
    ensures { IsTrue result ↔ All (λ m. IsTrue (mut_fits m.change)) changes.now }
{
    changes.iter().all(|m| mut_fits(&m.change))
}

// `none`, or `CAS BODY ATTRIBUTES` with `-` for no body.
fn doc_of(alloc: Global, slot: &str) -> Result<Option<Doc>, RowFault> {
    if slot == "none" {
        return Ok(None);
    }
    let (cas, rest) = two_parts(slot, " ")?;
    let (body, attrs) = two_parts(rest, " ")?;
    let cas = number::<u64>(cas)?;
    let attrs = json(alloc, attrs.as_bytes())?;
    let body = optional(alloc, body)?;
    Ok(Some(Doc { cas, body, attrs }))
}

fn optional(alloc: Global, text: &str) -> Result<Option<Json>, RowFault> {
    match text {
        "-" => Ok(None),
        _ => Ok(Some(json(alloc, text.as_bytes())?)),
    }
}

fn show_slot(alloc: Global, out: &mut String, slot: &Option<Doc>) -> Result<(), RowFault> {
    let Some(doc) = slot else {
        return Ok(out.push_str("none")?);
    };
    write!(out, "{} ", doc.cas)?;
    match &doc.body {
        Some(body) => show(alloc, out, body)?,
        None => out.push_str("-")?,
    }
    out.push_str(" ")?;
    show(alloc, out, &doc.attrs)
}

// `any`, `new`, or a CAS.
fn expect_of(text: &str) -> Result<DocExpect, RowFault> {
    match text {
        "any" => Ok(DocExpect::Any),
        "new" => Ok(DocExpect::New),
        _ => Ok(DocExpect::Cas(number(text)?)),
    }
}

// `keep`, `ensure`, `delete`, `revive TEXT` or `replace TEXT`.
fn body_of(alloc: Global, text: &str) -> Result<BodyChange, RowFault> {
    let (word, value) = text.split_once(' ').unwrap_or((text, "null"));
    let value = json(alloc, value.as_bytes())?;
    match word {
        "keep" => Ok(BodyChange::Keep),
        "ensure" => Ok(BodyChange::Ensure),
        "delete" => Ok(BodyChange::Delete),
        "revive" => Ok(BodyChange::Revive(value)),
        "replace" => Ok(BodyChange::Replace(value)),
        _ => Err(RowFault::NoSuchRow),
    }
}

// Names that are added with the value 1, as `attr:NAME` or `body:NAME`; `-` for none.
fn changes_of(alloc: Global, names: &str) -> Result<List<DocMut>, RowFault> {
    let mut changes = List::new(alloc);
    if names == "-" {
        return Ok(changes);
    }
    for name in names.split(' ') {
        let (place, name) = two_parts(name, ":")?;
        let change = addition(alloc, name)?;
        changes.push(DocMut {
            attr: place == "attr",
            change,
        })?;
    }
    Ok(changes)
}

fn addition(alloc: Global, name: &str) -> Result<Mut, RowFault> {
    let value = MutValue::Json(json(alloc, b"1")?);
    let path = path_of(alloc, name)?;
    Ok(Mut {
        op: MutOp::Add,
        path,
        value,
        parents: false,
    })
}

/// `look_doc SLOT | PLACE | LOOK | LOOK ..`, where the place is `body` or `attrs`.
pub fn look(alloc: Global, out: &mut String, argument: &str) -> Result<(), RowFault> {
    let (slot, rest) = two_parts(argument, " | ")?;
    let (place, looks) = two_parts(rest, " | ")?;
    let looks = looks_of(alloc, looks)?;
    match doc_of(alloc, slot)? {
        Some(doc) => look_into(alloc, out, &doc, place == "attrs", looks.as_slice()),
        None => Err(RowFault::NoSuchRow),
    }
}

fn look_into(
    alloc: Global,
    out: &mut String,
    doc: &Doc,
    attr: bool,
    looks: &[Look],
) -> Result<(), RowFault> {
    if looks.len() > MOST_LOOKS {
        return Err(RowFault::NoSuchRow);
    }
    match look_doc(alloc, doc, attr, looks) {
        Ok(answers) => show_answers(alloc, out, answers.as_slice()),
        Err(fault) => Ok(write!(out, "{fault}")?),
    }
}
