//! Attribute objects of documents.
ghost use Rattle.std.specs.Prelude.{◌≡◌, IfOk};
ghost use Rattle.cbt_json.specs.Attributes.{begins_with_underscore, kept_attributes, kept_members};

use crate::tree::Tree;
use crate::value::Json;
use cbt_base::{Duplicate, List, NoMemory, Text};
use std::alloc::Global;

impl Json {
    /// The attributes that the deletion of a document keeps: the members whose names begin with `_`. A
    /// value that is no object is kept as it is.
    pub fn kept_attributes(&self, alloc: Global) -> Result<Json, NoMemory>
        ensures { IfOk result (λ kept. kept ≡ kept_attributes self.now) }
    {
        match self.tree() {
            Tree::Object(members) => {
                let kept = kept_members(alloc, members.as_slice())?;
                Ok(Json::of(Tree::Object(kept)).unwrap())
            }
            _ => self.copy(alloc),
        }
    }
}

// The members whose names begin with `_`.
fn kept_members(alloc: Global, members: &[(Text, Tree)]) -> Result<List<(Text, Tree)>, NoMemory>
    ensures { IfOk result (λ kept. kept ≡ kept_members members.now) }
{
    let mut kept = List::new(alloc);
    for (name, value) in members {
        if begins_with_underscore(name.as_bytes()) {
            let name = name.copy(alloc)?;
            kept.push((name, value.copy(alloc)?))?;
        }
    }
    Ok(kept)
}

fn begins_with_underscore(name: &[u8]) -> bool
    ensures { result ≡ begins_with_underscore name.now }
{
    match name {
        [first, ..] => *first == b'_',
        [] => false,
    }
}
