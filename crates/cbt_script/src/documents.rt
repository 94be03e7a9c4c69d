//! The documents of a script, as far as they were read.

ghost use Rattle.std.specs.Prelude.{◌≡◌};
ghost use Rattle.std.specs.List.{list_all};
ghost use Rattle.cbt_json.specs.declared.tree.Tree.{out-Tree};
ghost use Rattle.cbt_script.specs.Causes.{Steps};
ghost use Rattle.cbt_script.specs.Documents.{no_documents, add_doc, add_attrs, are_attributes, may_name_attribute, attributed};

use crate::cause::{Cause, LineFault};
use crate::fields::{body, id, require};
use crate::limits::MAX_DOCS;
use cbt_base::{DocId, Duplicate, List, Map, Text};
use cbt_json::{Json, Tree};
use std::alloc::Global;

/// The documents that were given.
#[derive(Drop)]
pub(crate) struct Documents {
    /// Each with its body and its attributes.
    pub docs: List<(DocId, Json, Json)>,
    /// Their identifiers.
    pub ids: Map<DocId, ()>,
    /// Whether the line before is that of the last of them, so that its attributes may follow.
    pub follows: bool,
}

impl Documents {
    pub(crate) fn new(alloc: Global) -> Documents
        ensures { result ≡ no_documents }
    {
        Documents {
            docs: List::new(alloc),
            ids: Map::new(alloc),
            follows: false,
        }
    }

    /// Takes a document.
    #[tactic(auto, unfolding(crate::specs::Documents::add_doc))]
    pub(crate) fn take_doc(&mut self, alloc: Global, rest: &str) -> Result<(), LineFault>
        ensures { Steps result self.new (add_doc self.old rest.now) }
    {
        let (id, rest) = id(alloc, rest)?;
        require(!self.ids.contains_key(&id), Cause::Twice)?;
        let key = id.copy(alloc)?;
        let body = body(alloc, rest)?;
        if self.docs.len() >= MAX_DOCS {
            drop(body);
            return Err(LineFault::Refused(Cause::Limit));
        }
        self.docs.push((id, body, Json::empty_object(alloc)))?;
        self.ids.insert(key, ())?;
        self.follows = true;
        Ok(())
    }

    /// Takes the attributes of the last document, whose line is the one before.
    #[tactic(auto, unfolding(crate::specs::Documents::add_attrs))]
    pub(crate) fn take_attrs(&mut self, alloc: Global, rest: &str) -> Result<(), LineFault>
        ensures { Steps result self.new (add_attrs self.old rest.now) }
    {
        let (id, rest) = id(alloc, rest)?;
        let attrs = body(alloc, rest)?;
        if !(are_attributes(attrs.tree()) && self.follows) {
            drop(attrs);
            return Err(LineFault::Refused(Cause::Attrs));
        }
        set_last_attrs(&mut self.docs, &id, attrs)?;
        self.follows = false;
        Ok(())
    }
}

// Gives the last document its attributes, where it has this identifier.
fn set_last_attrs(
    docs: &mut List<(DocId, Json, Json)>,
    id: &DocId,
    attrs: Json,
) -> Result<(), LineFault>
    ensures { Steps result docs.new (attributed id.now attrs docs.old) }
{
    let Some((last, body, _none)) = docs.pop() else {
        return Err(LineFault::Refused(Cause::Attrs));
    };
    if last.as_str() != id.as_str() {
        return Err(LineFault::Refused(Cause::Attrs));
    }
    docs.push((last, body, attrs))?;
    Ok(())
}

// Whether a value is an object without the names that no attribute has.
fn are_attributes(tree: &Tree) -> bool
    ensures { result ≡ are_attributes (out-Tree tree.now) }
{
    match tree {
        Tree::Object(members) => may_name_attributes(members.as_slice()),
        _ => false,
    }
}

fn may_name_attributes(members: &[(Text, Tree)]) -> bool
    ensures { result ≡ list_all (λ m. may_name_attribute m.0) members.now }
{
    members.iter().all(|member| may_name_attribute(&member.0))
}

// Whether an attribute may have this name: any but the empty one and that of stagings.
fn may_name_attribute(name: &Text) -> bool
    ensures { result ≡ may_name_attribute name.now }
{
    name.len() > 0 && name.as_str() != "txn"
}
