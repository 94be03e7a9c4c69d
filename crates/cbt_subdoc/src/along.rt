//! Changes at the end of a path.
ghost use Rattle.std.specs.Prelude.{◌≡◌, ◌<◌, ◌≤◌, length, slice_get, slice_set, insert, remove, IfOk, MatchOption};
ghost use Rattle.cbt_subdoc.specs.Members.{member};
ghost use Rattle.cbt_subdoc.specs.Edits.{Does};
ghost use Rattle.cbt_subdoc.specs.Along.{in_object, item_changed, with_item_at, slot_changed, tree_changed, ends_in_place};

use crate::edits::{Edit, Refusal, edit_slot};
use crate::members::seat_of;
use crate::path::Part;
use cbt_base::{Duplicate, List, NoMemory, Text};
use cbt_json::Tree;
use std::alloc::Global;

/// A tree, changed at the end of a path, which has a part.
#[cycle(along)]
pub(crate) fn change_tree(
    alloc: Global,
    tree: Tree,
    path: &[Part],
    edit: Edit,
) -> Result<Tree, Refusal>
    ensures { Does result (tree_changed edit path.now tree) }
{
    let [part, path @ ..] = path else {
        return Err(Refusal::PathMismatch);
    };
    match tree {
        Tree::Object(members) => match part {
            Part::Name(name) => change_member(alloc, members, name, path, edit),
            _ => Err(Refusal::PathMismatch),
        },
        Tree::List(items) => match part {
            Part::Place(at) => change_item(alloc, items, *at as usize, path, edit),
            Part::Last => {
                let last = items.len().saturating_sub(1);
                change_item(alloc, items, last, path, edit)
            }
            Part::Name(_) => Err(Refusal::PathMismatch),
        },
        _ => Err(Refusal::PathMismatch),
    }
}

#[cycle(along)]
fn change_slot(
    alloc: Global,
    slot: Option<Tree>,
    path: &[Part],
    edit: Edit,
) -> Result<Option<Tree>, Refusal>
    ensures { Does result (slot_changed edit path.now slot) }
{
    let [part, rest @ ..] = path else {
        return edit_slot(alloc, edit, slot);
    };
    match slot {
        Some(tree) => Ok(Some(change_tree(alloc, tree, path, edit)?)),
        None => match part {
            Part::Name(name) if edit.parents => {
                let made = List::new(alloc);
                Ok(Some(change_member(alloc, made, name, rest, edit)?))
            }
            _ => Err(Refusal::PathNotFound),
        },
    }
}

// The object with these members, changed behind one of its names.
#[cycle(along)]
fn change_member(
    alloc: Global,
    mut members: List<(Text, Tree)>,
    name: &Text,
    path: &[Part],
    edit: Edit,
) -> Result<Tree, Refusal>
    ensures { Does result (in_object name.now members (slot_changed edit path.now (member name.now members))) }
{
    match seat_of(members.as_slice(), name) {
        Ok(at) => {
            let empty = Text::from_string(String::new(alloc));
            let (name, child) = members.replace(at, (empty, Tree::Null));
            let child = change_slot(alloc, Some(child), path, edit)?;
            Ok(Tree::Object(put_member(members, at, name, child)))
        }
        Err(at) => {
            let child = change_slot(alloc, None, path, edit)?;
            Ok(Tree::Object(add_member(alloc, members, at, name, child)?))
        }
    }
}

// The members with another value, or none, for the name at a place.
fn put_member(
    mut members: List<(Text, Tree)>,
    at: usize,
    name: Text,
    child: Option<Tree>,
) -> List<(Text, Tree)>
    requires { at < length members }
    ensures { MatchOption child (result ≡ remove members at) (λ value. result ≡ slice_set members at (name, value)) }
{
    match child {
        Some(value) => members.set(at, (name, value)),
        None => {
            let _ = members.remove(at);
        }
    }
    members
}

// The members with a further one, if there is a value for it.
fn add_member(
    alloc: Global,
    mut members: List<(Text, Tree)>,
    at: usize,
    name: &Text,
    child: Option<Tree>,
) -> Result<List<(Text, Tree)>, NoMemory>
    requires { at ≤ length members }
    ensures { IfOk result (λ all. MatchOption child (all ≡ members) (λ value. all ≡ insert members at (name.now, value))) }
{
    if let Some(value) = child {
        members.insert(at, (name.copy(alloc)?, value))?;
    }
    Ok(members)
}

// The list with these items, changed behind one of its places.
#[cycle(along)]
fn change_item(
    alloc: Global,
    mut items: List<Tree>,
    at: usize,
    path: &[Part],
    edit: Edit,
) -> Result<Tree, Refusal>
    ensures { Does result (item_changed (slot_changed edit path.now) at items (slice_get items at)) }
{
    if at >= items.len() {
        return Err(Refusal::PathNotFound);
    }
    let child = items.replace(at, Tree::Null);
    let child = change_slot(alloc, Some(child), path, edit)?;
    Ok(Tree::List(put_item_back(items, at, child)))
}

// The items with another one at a place, or without that place.
fn put_item_back(mut items: List<Tree>, at: usize, child: Option<Tree>) -> List<Tree>
    requires { at < length items }
    ensures { result ≡ with_item_at at child items }
{
    match child {
        Some(value) => items.set(at, value),
        None => {
            let _ = items.remove(at);
        }
    }
    items
}

/// Whether the last part is a place.
pub(crate) fn leads_to_place(path: &[Part]) -> bool
    ensures { result ≡ ends_in_place path.now }
{
    match path.last() {
        Some(Part::Name(_)) | None => false,
        Some(_) => true,
    }
}
