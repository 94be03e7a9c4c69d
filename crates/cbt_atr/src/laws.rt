//! Laws of entries and their JSON.
ghost use Rattle.std.specs.Prelude.{◌≡◌, ℕ, true, List, Ok};
ghost use Rattle.std.specs.List.{AllByRecursion};
ghost use Rattle.cbt_json.specs.declared.tree.Tree.{Tree};
ghost use Rattle.cbt_json.specs.Rules.{IsJson};
ghost use Rattle.cbt_model.specs.declared.entries.Entry.{Entry};
ghost use Rattle.cbt_model.specs.Fitting.{ids_rise};
ghost use Rattle.cbt_atr.specs.Entries.{written, IsEntry};
ghost use Rattle.cbt_atr.specs.EntriesRead.{entries_of};

/// A law: what is written is read back.
pub fn entries_read_back()
    ensures { (entries : List (ℕ × Entry)) → AllByRecursion IsEntry entries
        → entries_of (written entries) ≡ Ok entries }
{}

/// A law: only what is written of entries whose attempts rise is read as these.
pub fn only_entries_are_read()
    ensures { (tree : Tree) (entries : List (ℕ × Entry)) → IsJson tree → entries_of tree ≡ Ok entries
        → (AllByRecursion IsEntry entries × (ids_rise entries ≡ true)) × (tree ≡ written entries) }
{}
