//! Values of JSON.

use crate::arguments::{RowFault, json, long_text, nested, number, show, two_parts};
use cbt_base::{Duplicate, List, Text};
use cbt_json::{Json, Tree};
use std::alloc::Global;

/// `read TEXT`: the value, which its text reads as again, and which its copy is.
pub fn read(alloc: Global, out: &mut String, bytes: &[u8]) -> Result<(), RowFault> {
    match Json::read(alloc, bytes) {
        Ok(value) => show_again(alloc, out, &value),
        Err(fault) => Ok(write!(out, "{fault}")?),
    }
}

fn show_again(alloc: Global, out: &mut String, value: &Json) -> Result<(), RowFault> {
    show(alloc, out, value)?;
    let text = value.text(alloc)?;
    let again = json(alloc, text.as_bytes())?;
    if !is_copied(alloc, &again, value)? {
        out.push_str(" reads as another value")?;
    }
    Ok(())
}

// Whether the copy of a value is the same as another.
fn is_copied(alloc: Global, value: &Json, other: &Json) -> Result<bool, RowFault> {
    let copy = value.copy(alloc)?;
    Ok(copy.same(other))
}

/// `read_hex DIGITS`: bytes by their digits.
pub fn read_hex(alloc: Global, out: &mut String, argument: &str) -> Result<(), RowFault> {
    match hex::decode(alloc, argument) {
        Ok(bytes) => read(alloc, out, &bytes),
        Err(_) => Err(RowFault::NoSuchRow),
    }
}

/// `read_nested DEPTH`
pub fn read_nested(alloc: Global, out: &mut String, argument: &str) -> Result<(), RowFault> {
    let text = nested(alloc, argument)?;
    read(alloc, out, text.as_bytes())
}

/// `same TEXT TEXT`
pub fn same(alloc: Global, out: &mut String, argument: &str) -> Result<(), RowFault> {
    let (first, second) = two_parts(argument, " ")?;
    let first = json(alloc, first.as_bytes())?;
    show_same(alloc, out, &first, second)
}

fn show_same(alloc: Global, out: &mut String, first: &Json, second: &str) -> Result<(), RowFault> {
    let second = json(alloc, second.as_bytes())?;
    Ok(write!(out, "{}", first.same(&second))?)
}

/// `fits_long BYTES`: whether a text of so many bytes may be a body.
pub fn fits_long(alloc: Global, out: &mut String, argument: &str) -> Result<(), RowFault> {
    let text = long_text(alloc, argument)?;
    show_fit(out, &json(alloc, text.as_bytes())?)
}

/// `fits_nested DEPTH`
pub fn fits_nested(alloc: Global, out: &mut String, argument: &str) -> Result<(), RowFault> {
    let text = nested(alloc, argument)?;
    show_fit(out, &json(alloc, text.as_bytes())?)
}

fn show_fit(out: &mut String, value: &Json) -> Result<(), RowFault> {
    Ok(write!(out, "{}", value.body_fits())?)
}

/// `empty_object`: the object without names, and whether it may be a body.
pub fn empty_object(alloc: Global, out: &mut String) -> Result<(), RowFault> {
    let object = Json::empty_object(alloc);
    show(alloc, out, &object)?;
    out.push_str(" ")?;
    show_fit(out, &object)
}

/// `whole NUMBER`: the value of this tree.
pub fn whole(alloc: Global, out: &mut String, argument: &str) -> Result<(), RowFault> {
    show_value(alloc, out, Json::of(Tree::Whole(number(argument)?)))
}

/// `object NAME=TEXT ..`: the value of this tree, which its copy has too.
pub fn object(alloc: Global, out: &mut String, argument: &str) -> Result<(), RowFault> {
    let tree = Tree::Object(members(alloc, argument)?);
    match Json::of(tree.copy(alloc)?) {
        Some(value) => show_tree(alloc, out, &value, &tree),
        None => Ok(out.push_str("none")?),
    }
}

fn show_tree(alloc: Global, out: &mut String, value: &Json, tree: &Tree) -> Result<(), RowFault> {
    if value.tree().same(tree) {
        show(alloc, out, value)
    } else {
        Ok(out.push_str("another value")?)
    }
}

fn members(alloc: Global, argument: &str) -> Result<List<(Text, Tree)>, RowFault> {
    let mut members = List::new(alloc);
    for member in argument.split(' ') {
        members.push(member_of(alloc, member)?)?;
    }
    Ok(members)
}

fn member_of(alloc: Global, member: &str) -> Result<(Text, Tree), RowFault> {
    let (name, text) = two_parts(member, "=")?;
    let name = Text::from_str(alloc, name)?;
    let value = json(alloc, text.as_bytes())?;
    Ok((name, value.into_tree()))
}

/// `list_around DEPTH`: a list around so many others.
pub fn list_around(alloc: Global, out: &mut String, argument: &str) -> Result<(), RowFault> {
    let text = nested(alloc, argument)?;
    let inner = json(alloc, text.as_bytes())?;
    let mut items = List::new(alloc);
    items.push(inner.into_tree())?;
    show_value(alloc, out, Json::of(Tree::List(items)))
}

fn show_value(alloc: Global, out: &mut String, value: Option<Json>) -> Result<(), RowFault> {
    match value {
        Some(value) => show(alloc, out, &value),
        None => Ok(out.push_str("none")?),
    }
}

/// `kept TEXT`: the attributes that the deletion of a document keeps.
pub fn kept(alloc: Global, out: &mut String, argument: &str) -> Result<(), RowFault> {
    let attributes = json(alloc, argument.as_bytes())?;
    let kept = attributes.kept_attributes(alloc)?;
    show(alloc, out, &kept)
}
