ghost use Rattle.std.specs.Prelude.{◌≡◌, IfOk};

use cbt_base::{Duplicate, List, NoMemory, Text};
use std::alloc::Global;

/// A tree of JSON, which may break the rules of a `Json`.
#[derive(Debug, Drop)]
pub enum Tree {
    Null,
    Bool(bool),
    /// A whole number.
    Whole(i128),
    Text(Text),
    List(List<Tree>),
    /// Names with their values.
    Object(List<(Text, Tree)>),
}

impl Duplicate for Tree {
    fn copy(&self, alloc: Global) -> Result<Tree, NoMemory> {
        copy_tree(alloc, self)
    }
}

#[cycle(copy)]
fn copy_tree(alloc: Global, tree: &Tree) -> Result<Tree, NoMemory>
    ensures { IfOk result (λ second. second ≡ tree.now) }
{
    match tree {
        Tree::Null => Ok(Tree::Null),
        Tree::Bool(b) => Ok(Tree::Bool(*b)),
        Tree::Whole(n) => Ok(Tree::Whole(*n)),
        Tree::Text(text) => Ok(Tree::Text(text.copy(alloc)?)),
        Tree::List(items) => Ok(Tree::List(copy_items(alloc, items.as_slice())?)),
        Tree::Object(members) => Ok(Tree::Object(copy_members(alloc, members.as_slice())?)),
    }
}

#[cycle(copy)]
fn copy_items(alloc: Global, items: &[Tree]) -> Result<List<Tree>, NoMemory>
    ensures { IfOk result (λ second. second ≡ items.now) }
{
    let mut copies = Vec::with_capacity(alloc, items.len())?;
    for item in items {
        copies.push(copy_tree(alloc, item)?)?;
    }
    Ok(List::from_vec(copies))
}

#[cycle(copy)]
fn copy_members(alloc: Global, members: &[(Text, Tree)]) -> Result<List<(Text, Tree)>, NoMemory>
    ensures { IfOk result (λ second. second ≡ members.now) }
{
    let mut copies = Vec::with_capacity(alloc, members.len())?;
    for (name, value) in members {
        let name = name.copy(alloc)?;
        copies.push((name, copy_tree(alloc, value)?))?;
    }
    Ok(List::from_vec(copies))
}
