ghost use Rattle.std.specs.Prelude.{◌≡◌, ◌↔◌, ◌⊎◌, true, [], Some, None, IsTrue, IfOk, IfSome, IfNone, IsErrOf, IsUtf8};
ghost use Rattle.std.specs.Option.{IsSomeAnd};
ghost use Rattle.serde_json.specs.Written.{has_float};
ghost use Rattle.cbt_json.specs.declared.tree.Tree.{Tree};
ghost use Rattle.cbt_json.specs.declared.tree.Tree.TheVariants.{Null, Object};
ghost use Rattle.cbt_json.specs.Trees.{data_of, text_of};
ghost use Rattle.cbt_json.specs.Rules.{IsJson, BodyFits};
ghost use Rattle.cbt_json.specs.Reading.{reading, json_of};

use crate::fault::JsonFault;
use crate::fit::room_after;
use crate::printing::print;
use crate::reading::parse;
use crate::rules::is_regular_tree;
use crate::tree::Tree;
use cbt_base::{Duplicate, List, NoMemory, Text};
use std::alloc::Global;
use std::marker::Model;

/// How many levels of lists and objects a value may have.
const MAX_LEVELS: u32 = 127;

/// How many bytes the text of a body may have.
const MAX_BODY_BYTES: usize = 4096;

/// How many levels a body may have.
const MAX_BODY_LEVELS: u32 = 100;

/// A JSON value: a tree whose whole numbers lie from -2^63 to 2^64-1, whose objects' names rise by
/// bytes, and that has at most 127 levels. A scalar has 0 levels and an empty list 1.
#[derive(Debug, Drop)]
pub struct Json {
    tree: Tree,
}

impl Model for Json {
    ghost use Rattle.cbt_json.specs.declared.tree.Tree.{Tree};
    ghost use Rattle.cbt_json.specs.contracts.tree.Tree as e;
    ghost use Rattle.std.specs.Coded.{codes};

    ghost Value = { Tree };

    ghost coded = { Prim.hlevel (codes, e.the_row.coded) };

    ghost use Rattle.cbt_json.specs.Rules.{IsJson};

    ghost view = { λ j. j.tree };

    ghost invariant = { λ j. IsJson j.tree };
}

impl Json {
    pub fn null() -> Json
        ensures { result ≡ Null }
    {
        Json { tree: Tree::Null }
    }

    /// The object without names; it takes no memory.
    pub fn empty_object(alloc: Global) -> Json
        ensures { result ≡ Object [] }
    {
        Json {
            tree: Tree::Object(List::new(alloc)),
        }
    }

    /// The value of a tree that keeps the rules; it takes no memory.
    pub fn of(tree: Tree) -> Option<Json>
        ensures found { IfSome result (λ j. (j ≡ tree) × IsJson tree) }
        ensures none { IfNone result (¬ IsJson tree) }
    {
        if tree.has_levels_within(MAX_LEVELS) && is_regular_tree(&tree) {
            Some(Json { tree })
        } else {
            None
        }
    }

    /// The tree, which keeps the rules.
    pub fn tree(&self) -> &Tree
        ensures same { result.now ≡ self.now }
        ensures keeps_rules { IsJson self.now }
    {
        &self.tree
    }

    /// The tree, which keeps the rules; it takes no memory.
    pub fn into_tree(self) -> Tree
        ensures same { result ≡ self }
        ensures keeps_rules { IsJson self }
    {
        let Json { tree } = self;
        tree
    }

    /// Reads a text (RFC 8259). Of equal names in an object the last counts.
    pub fn read(alloc: Global, bytes: &[u8]) -> Result<Json, JsonFault>
        ensures ok { IfOk result (λ json. IsUtf8 bytes.now
            × (reading bytes.now ≡ Some (data_of json))) }
        ensures not_json { IsErrOf result JsonFault.NotJson → IsUtf8 bytes.now
            → reading bytes.now ≡ None }
        ensures not_whole { IsErrOf result JsonFault.NotWhole → IsUtf8 bytes.now
            × IsSomeAnd (reading bytes.now) (λ d. has_float d ≡ true) }

        // So a text has one answer, unless memory runs out.
        ensures answer { IsUtf8 bytes.now
            → (result ≡ json_of bytes.now) ⊎ IsErrOf result JsonFault.NoMemory }
        ensures again { (tree : Tree) → IsJson tree → IsUtf8 bytes.now → bytes.now ≡ text_of tree
            → (result ≡ Ok tree) ⊎ IsErrOf result JsonFault.NoMemory }
    {
        let tree = parse(alloc, bytes)?;
        Ok(Json { tree })
    }

    /// The compact canonical text.
    pub fn text(&self, alloc: Global) -> Result<Text, NoMemory>
        ensures { IfOk result (λ text. text ≡ text_of self.now) }
    {
        print(alloc, &self.tree)
    }

    /// Whether the value may be a body: its text has at most 4,096 bytes, and it has at most 100
    /// levels. It takes no memory, and no more steps than about the limit however large the value is.
    pub fn body_fits(&self) -> bool
        ensures { IsTrue result ↔ BodyFits self.now }
    {
        // A tree whose text fits is small, so its levels are counted last.
        room_after(&self.tree, MAX_BODY_BYTES).is_some()
            && self.tree.has_levels_within(MAX_BODY_LEVELS)
    }
}

impl Duplicate for Json {
    fn copy(&self, alloc: Global) -> Result<Json, NoMemory> {
        let tree = self.tree.copy(alloc)?;
        Ok(Json { tree })
    }
}
