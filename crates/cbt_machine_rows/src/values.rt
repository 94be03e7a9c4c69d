//! The values of which rows are made, and how they are told.

ghost use Rattle.std.specs.Prelude.{◌≡◌, ◌≤◌, true, IfOk};
ghost use Rattle.cbt_model.specs.Bodies.{body_fits_of};
ghost use Rattle.cbt_model.specs.Fitting.{content_fits};

use cbt_base::{DocId, List, NoMemory, Text};
use cbt_json::{Json, Tree};
use cbt_model::OpKind;
use std::alloc::Global;

/// The number of the content that a machine writes.
pub const WRITTEN: u64 = 9;

/// The document with this name.
pub fn document(alloc: Global, name: &str) -> Result<DocId, NoMemory> {
    match DocId::new(alloc, name) {
        Ok(doc) => Ok(doc),
        Err(_) => Err(NoMemory),
    }
}

/// The document that a machine writes, and what it stages there.
pub fn target(alloc: Global, kind: OpKind) -> Result<(DocId, Option<Json>), NoMemory>
    ensures { IfOk result (λ it. content_fits kind it.1 ≡ true) }
{
    let content = content(alloc, kind, WRITTEN)?;
    match document(alloc, "a") {
        Ok(doc) => Ok((doc, content)),
        Err(refused) => {
            drop(content);
            Err(refused)
        }
    }
}

/// What a write of this kind stages: the content with this number, or none.
pub fn content(alloc: Global, kind: OpKind, number: u64) -> Result<Option<Json>, NoMemory>
    ensures { IfOk result (λ content. content_fits kind content ≡ true) }
{
    match kind {
        OpKind::Remove => Ok(None),
        OpKind::Insert | OpKind::Replace => Ok(Some(body(alloc, number)?)),
    }
}

/// The content with this number.
pub fn body(alloc: Global, number: u64) -> Result<Json, NoMemory>
    ensures { IfOk result (λ body. body_fits_of body ≡ true) }
{
    let tree = tree_of(alloc, number)?;
    fitting(Json::of(tree))
}

// The object whose one member has this number.
fn tree_of(alloc: Global, number: u64) -> Result<Tree, NoMemory> {
    let name = Text::from_str(alloc, "n")?;
    let mut members = List::new(alloc);
    members.push((name, Tree::Whole(number as i128)))?;
    Ok(Tree::Object(members))
}

// A value that may be a body.
fn fitting(value: Option<Json>) -> Result<Json, NoMemory>
    ensures { IfOk result (λ body. body_fits_of body ≡ true) }
{
    let Some(value) = value else {
        return Err(NoMemory);
    };
    if value.body_fits() {
        return Ok(value);
    }
    Err(NoMemory)
}

/// A value as it is told: its text, or `none`.
pub fn push_value(told: &mut String, alloc: Global, value: Option<&Json>) -> Result<(), NoMemory> {
    match value {
        Some(json) => {
            let text = json.text(alloc)?;
            Ok(told.push_str(text.as_str())?)
        }
        None => Ok(told.push_str("none")?),
    }
}

/// Something with its place.
pub fn push_at(told: &mut String, word: &str, place: u64) -> Result<(), NoMemory> {
    told.push_str(word)?;
    Ok(write!(told, " at {place}")?)
}

/// The kind of write that a word names.
pub fn kind_of(word: &str) -> OpKind {
    match word {
        "insert" => OpKind::Insert,
        "remove" => OpKind::Remove,
        _ => OpKind::Replace,
    }
}
