//! Lists of documents.
ghost use Rattle.std.specs.Prelude.{◌≡◌, IfOk};
ghost use Rattle.std.specs.Option.{option_copied};
ghost use Rattle.cbt_shape.specs.Fields.{field};
ghost use Rattle.cbt_atr.specs.Entries.{doc_tree, docs_tree};
ghost use Rattle.cbt_atr.specs.EntriesRead.{doc_in, doc_form, docs_in, docs_form};

use cbt_base::{DocId, IdFault, List, NoMemory, Text};
use cbt_json::Tree;
use cbt_shape::{Field, put, text_of};
use std::alloc::Global;

/// A list of documents, each an object with its identifier.
pub(crate) fn docs_tree(alloc: Global, docs: &[DocId]) -> Result<Tree, NoMemory>
    ensures { IfOk result (λ tree. tree ≡ docs_tree docs.now) }
{
    let mut trees = List::new(alloc);
    for doc in docs {
        trees.push(doc_tree(alloc, doc)?)?;
    }
    Ok(Tree::List(trees))
}

fn doc_tree(alloc: Global, doc: &DocId) -> Result<Tree, NoMemory>
    ensures { IfOk result (λ tree. tree ≡ doc_tree doc.now) }
{
    let mut fields = List::new(alloc);
    let id = Text::from_str(alloc, doc.as_str())?;
    put(alloc, &mut fields, "id", Tree::Text(id))?;
    Ok(Tree::Object(fields))
}

/// A field that holds a list of documents.
pub(crate) fn docs_field(
    alloc: Global,
    there: Option<&Tree>,
) -> Result<Field<List<DocId>>, NoMemory>
    ensures { IfOk result (λ docs. docs ≡ field docs_form (option_copied there.entry)) }
{
    match there {
        None => Ok(Field::Missing),
        Some(Tree::List(trees)) => Ok(Field::judged(docs_in(alloc, trees.as_slice())?)),
        Some(_) => Ok(Field::OtherForm),
    }
}

fn docs_in(alloc: Global, trees: &[Tree]) -> Result<Option<List<DocId>>, NoMemory>
    ensures { IfOk result (λ docs. docs ≡ docs_in trees.now) }
{
    let mut docs = List::new(alloc);
    for tree in trees {
        match doc_of(alloc, tree)? {
            Some(doc) => docs.push(doc)?,
            None => return Ok(None),
        }
    }
    Ok(Some(docs))
}

fn doc_of(alloc: Global, tree: &Tree) -> Result<Option<DocId>, NoMemory>
    ensures { IfOk result (λ doc. doc ≡ doc_form tree.now) }
{
    let Tree::Object(members) = tree else {
        return Ok(None);
    };
    match members.as_slice() {
        [(name, value)] if name.as_str() == "id" => match text_of(value) {
            Some(text) => doc_with_id(alloc, text),
            None => Ok(None),
        },
        _ => Ok(None),
    }
}

fn doc_with_id(alloc: Global, text: &str) -> Result<Option<DocId>, NoMemory>
    ensures { IfOk result (λ doc. doc ≡ doc_in text.now) }
{
    match DocId::new(alloc, text) {
        Ok(doc) => Ok(Some(doc)),
        Err(IdFault::NoMemory) => Err(NoMemory),
        Err(_) => Ok(None),
    }
}
