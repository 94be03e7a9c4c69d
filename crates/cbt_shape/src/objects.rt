//! Objects and their members.
ghost use Rattle.std.specs.Prelude.{◌≡◌, ◌++◌, [], ◌∷◌, map, OnOk};
ghost use Rattle.std.specs.Option.{option_copied};
ghost use Rattle.cbt_json.specs.declared.tree.Tree.{out-Tree};
ghost use Rattle.cbt_subdoc.specs.Members.{member};
ghost use Rattle.cbt_shape.specs.Readings.{Reads};
ghost use Rattle.cbt_shape.specs.Objects.{members_of, part, is_among, has_only, text_of};

use crate::fault::ShapeFault;
use cbt_base::{List, NoMemory, Text};
use cbt_json::Tree;
use std::alloc::Global;
use std::cmp::Ordering;

/// The members of what has to be an object.
pub fn members_of(tree: &Tree) -> Result<&[(Text, Tree)], ShapeFault>
    ensures { Reads (λ members. members.now) result (members_of (out-Tree tree.now)) }
{
    match tree {
        Tree::Object(members) => Ok(members.as_slice()),
        _ => Err(ShapeFault::Shape { at: 0 }),
    }
}

/// The value of a name, among names that rise.
pub fn member_at<'a>(members: &'a [(Text, Tree)], name: &str) -> Option<&'a Tree>
    ensures { option_copied result ≡ member name.now members.now }
{
    for (other, value) in members {
        match name.cmp(other.as_str()) {
            Ordering::Less => return None,
            Ordering::Equal => return Some(value),
            Ordering::Greater => {}
        }
    }
    None
}

/// The members of a part of a record: none where it is missing or no object.
pub fn part<'a>(members: &'a [(Text, Tree)], name: &str) -> &'a [(Text, Tree)]
    ensures { result.now ≡ part name.now members.now }
{
    match member_at(members, name) {
        Some(Tree::Object(inner)) => inner.as_slice(),
        _ => &[],
    }
}

/// Whether each name is one of these.
pub fn has_only(members: &[(Text, Tree)], names: &[&str]) -> bool
    ensures { result ≡ has_only (map (λ n. n.now) names.now) members.now }
{
    for (name, _) in members {
        if !is_among(names, name.as_str()) {
            return false;
        }
    }
    true
}

fn is_among(names: &[&str], name: &str) -> bool
    ensures { result ≡ is_among (map (λ n. n.now) names.now) name.now }
{
    for other in names {
        if *other == name {
            return true;
        }
    }
    false
}

/// The text that a value is.
pub fn text_of(tree: &Tree) -> Option<&str>
    ensures { option_copied result ≡ text_of (out-Tree tree.now) }
{
    match tree {
        Tree::Text(text) => Some(text.as_str()),
        _ => None,
    }
}

/// Puts a member at the end, for which the names have to rise.
pub fn put(
    alloc: Global,
    members: &mut List<(Text, Tree)>,
    name: &str,
    value: Tree,
) -> Result<(), NoMemory>
    ensures { OnOk result (members.new ≡ members.old ++ (name.now, value) ∷ []) }
{
    let name = Text::from_str(alloc, name)?;
    members.push((name, value))
}
