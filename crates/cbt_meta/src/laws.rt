//! Laws of stagings and their JSON.
ghost use Rattle.std.specs.Prelude.{◌≡◌, Ok};
ghost use Rattle.cbt_json.specs.declared.tree.Tree.{Tree};
ghost use Rattle.cbt_json.specs.Rules.{IsJson};
ghost use Rattle.cbt_model.specs.declared.documents.Stage.{Stage};
ghost use Rattle.cbt_meta.specs.Stagings.{written, IsStaging};
ghost use Rattle.cbt_meta.specs.StagingsRead.{staging_of};

/// A law: what is written is read back.
pub fn stagings_read_back()
    ensures { (stage : Stage) → IsStaging stage → staging_of (written stage) ≡ Ok stage }
{}

/// A law: only what is written of a staging is read as one.
pub fn only_stagings_are_read()
    ensures { (tree : Tree) (stage : Stage) → IsJson tree → staging_of tree ≡ Ok stage
        → IsStaging stage × (tree ≡ written stage) }
{}
