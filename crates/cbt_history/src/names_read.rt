//! Lists of names, read from JSON.

ghost use Rattle.std.specs.Prelude.{◌≡◌};
ghost use Rattle.cbt_json.specs.declared.tree.Tree.{out-Tree};
ghost use Rattle.cbt_history.specs.Readings.{Gives, Finds};
ghost use Rattle.cbt_history.specs.NamesRead.{doc_of, docs_of, doc_list, three_lists, lists_from, lists_in, id_of, ids_of, id_list, gone_in};

use crate::faults::{BadField, LineFault};
use crate::fields::{doc_at, id_at, json_at, require};
use cbt_base::{DocId, Id, List};
use cbt_json::Tree;
use cbt_model::Lists;
use std::alloc::Global;

/// How many cleaners that are gone a beat may name.
const MAX_GONE: usize = 12;

/// What an attempt inserted, replaced and removed: a list of three lists of documents.
#[tactic(auto, unfolding(crate::specs::NamesRead::lists_in))]
pub(crate) fn lists_at(alloc: Global, text: &str) -> Result<Lists, LineFault>
    ensures { Gives (λ lists. lists) result (lists_in text.now) }
{
    let json = json_at(alloc, text)?;
    lists_from(alloc, json.tree())
}

fn lists_from(alloc: Global, tree: &Tree) -> Result<Lists, LineFault>
    ensures { Gives (λ lists. lists) result (lists_from (out-Tree tree.now)) }
{
    let Tree::List(parts) = tree else {
        return Err(LineFault::Refused);
    };
    match parts.as_slice() {
        [one, two, three] => three_lists(alloc, one, two, three),
        _ => Err(LineFault::Refused),
    }
}

#[tactic(auto, unfolding(crate::specs::NamesRead::three_lists))]
fn three_lists(alloc: Global, one: &Tree, two: &Tree, three: &Tree) -> Result<Lists, LineFault>
    ensures { Gives (λ lists. lists) result (three_lists one.now two.now three.now) }
{
    let ins = doc_list(alloc, one)?;
    let rep = doc_list(alloc, two)?;
    let rem = doc_list(alloc, three)?;
    Ok(Lists { ins, rep, rem })
}

fn doc_list(alloc: Global, tree: &Tree) -> Result<List<DocId>, LineFault>
    ensures { Gives (λ docs. docs) result (doc_list (out-Tree tree.now)) }
{
    match tree {
        Tree::List(trees) => docs_of(alloc, trees.as_slice()),
        _ => Err(LineFault::Refused),
    }
}

fn docs_of(alloc: Global, trees: &[Tree]) -> Result<List<DocId>, LineFault>
    ensures { Gives (λ docs. docs) result (docs_of trees.now) }
{
    let mut docs = List::new(alloc);
    for tree in trees {
        docs.push(doc_of(alloc, tree)?)?;
    }
    Ok(docs)
}

fn doc_of(alloc: Global, tree: &Tree) -> Result<DocId, LineFault>
    ensures { Gives (λ doc. doc) result (doc_of (out-Tree tree.now)) }
{
    match tree {
        Tree::Text(name) => doc_at(alloc, name.as_str()),
        _ => Err(LineFault::Refused),
    }
}

/// At most twelve identifiers.
#[tactic(auto, unfolding(crate::specs::NamesRead::gone_in))]
pub(crate) fn gone_at(alloc: Global, text: &str) -> Result<List<Id>, LineFault>
    ensures { Gives (λ ids. ids) result (gone_in text.now) }
{
    let json = json_at(alloc, text)?;
    let ids = id_list(alloc, json.tree())?;
    require(ids.len() <= MAX_GONE)?;
    Ok(ids)
}

fn id_list(alloc: Global, tree: &Tree) -> Result<List<Id>, LineFault>
    ensures { Gives (λ ids. ids) result (id_list (out-Tree tree.now)) }
{
    match tree {
        Tree::List(trees) => ids_of(alloc, trees.as_slice()),
        _ => Err(LineFault::Refused),
    }
}

fn ids_of(alloc: Global, trees: &[Tree]) -> Result<List<Id>, LineFault>
    ensures { Gives (λ ids. ids) result (ids_of trees.now) }
{
    let mut ids = List::new(alloc);
    for tree in trees {
        ids.push(id_of(tree)?)?;
    }
    Ok(ids)
}

fn id_of(tree: &Tree) -> Result<Id, BadField>
    ensures { Finds (λ id. id) result (id_of (out-Tree tree.now)) }
{
    match tree {
        Tree::Text(name) => id_at(name.as_str()),
        _ => Err(BadField),
    }
}
