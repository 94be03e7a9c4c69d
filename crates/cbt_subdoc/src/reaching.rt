//! What a path reaches.
ghost use Rattle.std.specs.Option.{option_copied};
ghost use Rattle.cbt_json.specs.declared.tree.Tree.{out-Tree};
ghost use Rattle.cbt_subdoc.specs.Reach.{Reaches, child, found, reached};

use crate::members::member_at;
use crate::path::Part;
use cbt_json::Tree;

/// Why a path does not reach.
#[derive(Clone, Copy, Debug, PartialEq, Eq)]
pub(crate) enum Miss {
    /// The object has no such member, or the list no such item.
    NotFound,
    /// A name leads on from no object, or a place from no list.
    Mismatch,
}

/// What a path reaches; the first part that does not reach decides.
pub(crate) fn reach<'a>(tree: &'a Tree, path: &[Part]) -> Result<&'a Tree, Miss>
    ensures { Reaches result (reached path.now tree.now) }
{
    let mut at = tree;
    for part in path {
        at = child_of(at, part)?;
    }
    Ok(at)
}

// What one part reaches.
fn child_of<'a>(tree: &'a Tree, part: &Part) -> Result<&'a Tree, Miss>
    ensures { Reaches result (child part.now (out-Tree tree.now)) }
{
    match tree {
        Tree::Object(members) => match part {
            Part::Name(name) => found_in(member_at(members.as_slice(), name)),
            _ => Err(Miss::Mismatch),
        },
        Tree::List(items) => match part {
            Part::Place(at) => found_in(items.get(*at as usize)),
            Part::Last => found_in(items.get(items.len().saturating_sub(1))),
            Part::Name(_) => Err(Miss::Mismatch),
        },
        _ => Err(Miss::Mismatch),
    }
}

fn found_in(child: Option<&Tree>) -> Result<&Tree, Miss>
    ensures { Reaches result (found (option_copied child.entry)) }
{
    child.ok_or(Miss::NotFound)
}
