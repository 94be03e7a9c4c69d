//! Laws of paths and of changes.
ghost use Rattle.std.specs.Prelude.{◌≡◌, ◌↔◌, ℕ, List, IsTrue, Ok, Err};
ghost use Rattle.cbt_subdoc.specs.declared.path.Part.{Part};
ghost use Rattle.cbt_subdoc.specs.declared.path.PathFault.TheVariants.{BadAt};
ghost use Rattle.cbt_json.specs.declared.tree.Tree.{Tree};
ghost use Rattle.cbt_json.specs.declared.tree.Tree.TheVariants.{Object};
ghost use Rattle.cbt_json.specs.Rules.{IsJson};
ghost use Rattle.cbt_subdoc.specs.declared.changes.Mut.{Mut};
ghost use Rattle.cbt_subdoc.specs.Edits.{sets};
ghost use Rattle.cbt_subdoc.specs.Members.{Members, IsKeyed};
ghost use Rattle.cbt_subdoc.specs.Values.{value_of};
ghost use Rattle.cbt_subdoc.specs.Along.{changed};
ghost use Rattle.cbt_subdoc.specs.Reach.{reached};
ghost use Rattle.cbt_subdoc.specs.Paths.{parts_of, path_of};
ghost use Rattle.cbt_subdoc.specs.Written.{IsFirstBad, IsTextOf};

/// A law: a text is read as parts exactly where they may be written so; the limits of a path are
/// tested besides.
pub fn what_is_written_is_read()
    ensures { (text : List ℕ) (parts : List Part) → (parts_of text ≡ Ok parts) ↔ IsTextOf parts text }
{}

/// A law: a fault names the first byte of a text at which no path goes on, or its length where it
/// ends too early.
pub fn bad_byte_is_first()
    ensures { (text : List ℕ) (at : ℕ) → path_of text ≡ Err (BadAt at) → IsFirstBad text at }
{}

/// A law: a value that was set is what a look along the same path finds.
pub fn set_value_is_found()
    ensures { (cas : ℕ) (change : Mut) (tree after : Tree) → IsTrue (sets change.op) → changed cas change tree ≡ Ok after → reached change.path after ≡ Ok (value_of cas change.value) }
{}

/// A law: in a JSON value a name of an object is found, and taken away, as a key of a map.
pub fn names_are_keys()
    ensures { (name : List ℕ) (ms : Members) → IsJson (Object ms) → IsKeyed name ms }
{}
