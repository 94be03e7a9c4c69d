//! Lists of names, as JSON.

ghost use Rattle.std.specs.Prelude.{◌≡◌, ◌++◌, IfOk, OnOk};
ghost use Rattle.cbt_json.specs.Rules.{IsJson};
ghost use Rattle.cbt_json.specs.Trees.{text_of};
ghost use Rattle.cbt_history.specs.NameLists.{names_tree, lists_tree, lists_text, ids_tree, ids_text};

use cbt_base::{DocId, Id, List, NoMemory, Text};
use cbt_json::{Json, Tree};
use cbt_model::Lists;
use std::alloc::Global;

/// Puts what an attempt wrote at the end, as a list of three lists of documents.
pub(crate) fn push_lists(alloc: Global, out: &mut Text, lists: &Lists) -> Result<(), NoMemory>
    ensures { OnOk result (out.new ≡ out.old ++ lists_text lists.now) }
{
    let tree = lists_tree(alloc, lists)?;
    push_tree(alloc, out, tree)
}

/// Puts a list of identifiers at the end.
pub(crate) fn push_ids(alloc: Global, out: &mut Text, ids: &[Id]) -> Result<(), NoMemory>
    ensures { OnOk result (out.new ≡ out.old ++ ids_text ids.now) }
{
    let tree = ids_tree(alloc, ids)?;
    push_tree(alloc, out, tree)
}

// Puts a tree at the end that keeps the rules of JSON.
fn push_tree(alloc: Global, out: &mut Text, tree: Tree) -> Result<(), NoMemory>
    requires { IsJson tree }
    ensures { OnOk result (out.new ≡ out.old ++ text_of tree) }
{
    let text = Json::of(tree).unwrap().text(alloc)?;
    out.push_str(text.as_str())
}

fn lists_tree(alloc: Global, lists: &Lists) -> Result<Tree, NoMemory>
    ensures { IfOk result (λ tree. tree ≡ lists_tree lists.now) }
{
    let mut parts = List::new(alloc);
    parts.push(names_tree(alloc, lists.ins.as_slice())?)?;
    parts.push(names_tree(alloc, lists.rep.as_slice())?)?;
    parts.push(names_tree(alloc, lists.rem.as_slice())?)?;
    Ok(Tree::List(parts))
}

fn names_tree(alloc: Global, docs: &[DocId]) -> Result<Tree, NoMemory>
    ensures { IfOk result (λ tree. tree ≡ names_tree docs.now) }
{
    let mut names = List::new(alloc);
    for doc in docs {
        names.push(Tree::Text(Text::from_str(alloc, doc.as_str())?))?;
    }
    Ok(Tree::List(names))
}

fn ids_tree(alloc: Global, ids: &[Id]) -> Result<Tree, NoMemory>
    ensures { IfOk result (λ tree. tree ≡ ids_tree ids.now) }
{
    let mut names = List::new(alloc);
    for id in ids {
        names.push(Tree::Text(id.text(alloc)?))?;
    }
    Ok(Tree::List(names))
}
