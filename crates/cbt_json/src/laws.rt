ghost use Rattle.std.specs.Prelude.{◌≡◌, ℕ, List, Ok};
ghost use Rattle.cbt_json.specs.declared.tree.Tree.{Tree};
ghost use Rattle.cbt_json.specs.Trees.{text_of};
ghost use Rattle.cbt_json.specs.Rules.{IsJson};
ghost use Rattle.cbt_json.specs.Reading.{json_of};

/// A law: the text of a JSON value is that value.
pub fn text_reads_back()
    ensures { (tree : Tree) → IsJson tree → json_of (text_of tree) ≡ Ok tree }
{}

/// A law: what a text reads as keeps the rules.
pub fn reading_keeps_rules()
    ensures { (text : List ℕ) (tree : Tree) → json_of text ≡ Ok tree → IsJson tree }
{}
