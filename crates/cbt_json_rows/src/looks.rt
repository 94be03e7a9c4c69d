//! Looks into a value.

use crate::arguments::{RowFault, json, show, two_parts};
use cbt_base::List;
use cbt_json::Json;
use cbt_subdoc::{Look, LookAnswer, Path, lookup};
use std::alloc::Global;

/// The most looks of a call.
pub const MOST_LOOKS: usize = 16;

/// `look TEXT | LOOK | LOOK ..`
pub fn look(alloc: Global, out: &mut String, argument: &str) -> Result<(), RowFault> {
    let (tree, looks) = two_parts(argument, " | ")?;
    let tree = json(alloc, tree.as_bytes())?;
    let looks = looks_of(alloc, looks)?;
    look_into(alloc, out, &tree, looks.as_slice())
}

fn look_into(alloc: Global, out: &mut String, tree: &Json, looks: &[Look]) -> Result<(), RowFault> {
    if looks.len() > MOST_LOOKS {
        return Err(RowFault::NoSuchRow);
    }
    let answers = lookup(alloc, tree, looks)?;
    show_answers(alloc, out, answers.as_slice())
}

/// The looks `exists PATH`, `get PATH` and `count PATH`.
pub fn looks_of(alloc: Global, text: &str) -> Result<List<Look>, RowFault> {
    let mut looks = List::new(alloc);
    for look in text.split(" | ") {
        let (word, path) = two_parts(look, " ")?;
        looks.push(look_of(word, path_of(alloc, path)?)?)?;
    }
    Ok(looks)
}

fn look_of(word: &str, path: Path) -> Result<Look, RowFault> {
    match word {
        "exists" => Ok(Look::Exists(path)),
        "get" => Ok(Look::Get(path)),
        "count" => Ok(Look::Count(path)),
        _ => Err(RowFault::NoSuchRow),
    }
}

/// The path of a text.
pub fn path_of(alloc: Global, text: &str) -> Result<Path, RowFault> {
    match Path::parse(alloc, text) {
        Ok(path) => Ok(path),
        Err(_) => Err(RowFault::NoSuchRow),
    }
}

/// Puts answers into that of the row: `+` for a value that is there, `-` for none, `x` for one of
/// another kind.
pub fn show_answers(
    alloc: Global,
    out: &mut String,
    answers: &[LookAnswer],
) -> Result<(), RowFault> {
    for (at, answer) in answers.iter().enumerate() {
        if at > 0 {
            out.push_str(" ")?;
        }
        match answer {
            LookAnswer::Yes => out.push_str("+")?,
            LookAnswer::Found(value) => show(alloc, out, value)?,
            LookAnswer::Count(count) => write!(out, "{count}")?,
            LookAnswer::NotFound => out.push_str("-")?,
            LookAnswer::Mismatch => out.push_str("x")?,
        }
    }
    Ok(())
}
