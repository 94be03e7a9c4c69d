//! What holds of scripts and their texts. Each function does nothing: what it ensures is the law.

ghost use Rattle.std.specs.Prelude.{◌≡◌, ℕ, List, Ok, IsUtf8};
ghost use Rattle.cbt_json.specs.declared.tree.Tree.{Tree};
ghost use Rattle.cbt_model.specs.Fresh.{IsFresh};
ghost use Rattle.cbt_script.specs.Opening.{opening_of};
ghost use Rattle.cbt_script.specs.Printed.{script_text};
ghost use Rattle.cbt_script.specs.Reading.{script_of};
ghost use Rattle.cbt_script.specs.Rules.{IsScript};
ghost use Rattle.cbt_script.specs.declared.script.Script.{Script};

/// A law: a script that was read keeps the rules of scripts: each number in its range, each count and
/// sum within its limit, distinct names and documents, and faults, stops and items of actors that it
/// has.
pub fn scripts_keep_rules()
    ensures { (bytes : List ℕ) (s : Script) → script_of bytes ≡ Ok s → IsScript s }
{}

/// A law: reading the canonical text of a script that was read gives it again. The text is UTF-8, as
/// each text that is written.
pub fn text_reads_back()
    ensures { (bytes : List ℕ) (s : Script) → script_of bytes ≡ Ok s → IsUtf8 (script_text s) → script_of (script_text s) ≡ Ok s }
{}

/// A law: a text that is the canonical one of a script that keeps the rules reads as this script. It is
/// UTF-8 by its type.
pub fn written_text_reads_back(script: &crate::Script, text: &str)
    requires { text.now ≡ script_text script.now }
    ensures { IsScript script.now → script_of text.now ≡ Ok script.now }
{}

/// A law: nobody has written in the state that the node of a script begins with: no entry and no row
/// stands there, no document is staged, and no stamp is above the clock.
pub fn openings_are_fresh()
    ensures { (docs : List (List ℕ × Tree × Tree)) → IsFresh (opening_of docs) }
{}
