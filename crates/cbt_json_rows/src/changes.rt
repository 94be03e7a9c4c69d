//! Changes of a value.

ghost use Rattle.std.specs.Prelude.{◌↔◌, All, IsTrue};
ghost use Rattle.cbt_subdoc.specs.Fits.{mut_fits};

use crate::arguments::{RowFault, json, nested, number, show, two_parts};
use crate::looks::path_of;
use cbt_base::List;
use cbt_json::Json;
use cbt_subdoc::{Mut, MutOp, MutValue, macro_text, mut_fits, mutate};
use std::alloc::Global;

/// The CAS of a call.
const CAS: u64 = 1_000_996_864;

/// `change TEXT | CHANGE | CHANGE ..`: the value afterwards, behind the fault where there is one.
pub fn change(alloc: Global, out: &mut String, argument: &str) -> Result<(), RowFault> {
    let (tree, texts) = two_parts(argument, " | ")?;
    let mut changes = List::new(alloc);
    for text in texts.split(" | ") {
        changes.push(change_of(alloc, text)?)?;
    }
    make(alloc, out, tree, changes.as_slice())
}

// `OPERATION PATH VALUE`, behind `parents` where objects are made on the way.
fn change_of(alloc: Global, text: &str) -> Result<Mut, RowFault> {
    let (parents, text) = match text.strip_prefix("parents ") {
        Some(rest) => (true, rest),
        None => (false, text),
    };
    let (word, rest) = two_parts(text, " ")?;
    let (path, value) = rest.split_once(' ').unwrap_or((rest, ""));
    let op = operation(word)?;
    let value = value_of(alloc, op, value)?;
    let path = path_of(alloc, path)?;
    Ok(Mut {
        op,
        path,
        value,
        parents,
    })
}

fn operation(word: &str) -> Result<MutOp, RowFault> {
    match word {
        "add" => Ok(MutOp::Add),
        "upsert" => Ok(MutOp::Upsert),
        "replace" => Ok(MutOp::Replace),
        "delete" => Ok(MutOp::Delete),
        "push_first" => Ok(MutOp::PushFirst),
        "push_last" => Ok(MutOp::PushLast),
        "add_unique" => Ok(MutOp::AddUnique),
        "counter" => Ok(MutOp::Counter),
        _ => Err(RowFault::NoSuchRow),
    }
}

// The text that stands for the CAS is written `CAS`.
fn value_of(alloc: Global, op: MutOp, text: &str) -> Result<MutValue, RowFault> {
    match text {
        "" => Ok(MutValue::None),
        "CAS" => Ok(MutValue::MacroCas),
        _ if op == MutOp::Counter => Ok(MutValue::Delta(number(text)?)),
        _ => Ok(MutValue::Json(json(alloc, text.as_bytes())?)),
    }
}

fn make(alloc: Global, out: &mut String, tree: &str, changes: &[Mut]) -> Result<(), RowFault> {
    let mut tree = json(alloc, tree.as_bytes())?;
    if !all_fit(changes) {
        return Err(RowFault::NoSuchRow);
    }
    if let Err(fault) = mutate(alloc, &mut tree, changes, CAS) {
        write!(out, "{fault}; ")?;
    }
    show(alloc, out, &tree)
}

fn all_fit(changes: &[Mut]) -> bool
    ensures { IsTrue result ↔ All (λ change. IsTrue (mut_fits change)) changes.now }
{
    changes.iter().all(|change| mut_fits(change))
}

/// `count_up COUNT TEXT`: so many changes of the number at `n` by 1.
pub fn count_up(alloc: Global, out: &mut String, argument: &str) -> Result<(), RowFault> {
    let (count, tree) = two_parts(argument, " ")?;
    let mut changes = List::new(alloc);
    for _ in 0..number::<u8>(count)? {
        changes.push(change_of(alloc, "counter n 1")?)?;
    }
    make(alloc, out, tree, changes.as_slice())
}

/// `upsert_nested DEPTH`: so many lists, one inside the other, put into an object.
pub fn upsert_nested(alloc: Global, out: &mut String, argument: &str) -> Result<(), RowFault> {
    let text = nested(alloc, argument)?;
    let value = MutValue::Json(json(alloc, text.as_bytes())?);
    let path = path_of(alloc, "d")?;
    let upsert = Mut {
        op: MutOp::Upsert,
        path,
        value,
        parents: false,
    };
    make(alloc, out, "{}", &[upsert])
}

/// `macro_text CAS`
pub fn stamp_text(alloc: Global, out: &mut String, argument: &str) -> Result<(), RowFault> {
    let text = macro_text(alloc, number(argument)?)?;
    Ok(out.push_str(text.as_str())?)
}
