//! What the calls of a rollback come to, whatever fitting answers they had. Each function does nothing:
//! what it ensures is the law. They take no memory.

ghost use Rattle.std.specs.Prelude.{◌≡◌, ◌≢◌, ℕ, ◌+◌, ◌*◌, ◌≤◌, List, ◌∷◌, ◌++◌, length, Option, Some, None};
ghost use Rattle.cbt_model.specs.declared.events.Made.{Made};
ghost use Rattle.cbt_model.specs.declared.steps.Reply.TheVariants as reply;
ghost use Rattle.cbt_model.specs.declared.steps.Step.{Step};
ghost use Rattle.cbt_book.specs.Closing.{HasAborted, IsUndone, MayClose};
ghost use Rattle.cbt_book.specs.Licence.{MayTake};
ghost use Rattle.cbt_book.specs.Numbers.{Identity};
ghost use Rattle.cbt_book.specs.Outcomes.{EndsFailed};
ghost use Rattle.cbt_book.specs.OwnLists.{Each, Once};
ghost use Rattle.cbt_attempt.specs.declared.own.Own.{Own};
ghost use Rattle.cbt_rollback.specs.Commits.{AreCommits};
ghost use Rattle.cbt_rollback.specs.Phases.{calls_left, end_of, step_of, task_of};
ghost use Rattle.cbt_rollback.specs.Ready.{IsOf, IsReady};
ghost use Rattle.cbt_rollback.specs.Standing.{StandsFor};
ghost use Rattle.cbt_rollback.specs.declared.undos.Undo.{Undo};

use crate::phases::UndoEnd;

/// With n own writes a rollback makes at most 2 n + 2 calls. It asks for none exactly where none is
/// left.
pub fn undos_stay_bounded()
    ensures few { (undo : Undo) (mine : List Made) → StandsFor undo mine
        → length mine + calls_left undo ≤ 2 * length undo.works.entries + 2 }
    ensures at_end { (undo : Undo) → calls_left undo ≡ 0 → step_of undo ≡ None }
    ensures asks { (undo : Undo) → step_of undo ≡ None → calls_left undo ≡ 0 }
{}

/// What a rollback has ended with is so by its calls. RolledBack: nothing of the attempt is left, and no
/// call failed. Incomplete: the newest call failed, at the place named, and the attempt was aborted by
/// it or before.
pub fn undos_end_right()
    ensures undone { (undo : Undo) (mine calls : List Made) → StandsFor undo mine
        → end_of undo ≡ Some UndoEnd.RolledBack → IsUndone undo.attempt calls mine }
    ensures unfailed { (undo : Undo) (mine : List Made) → StandsFor undo mine
        → end_of undo ≡ Some UndoEnd.RolledBack
        → Each (λ m _. m.answer.reply ≢ reply.Failed) mine }
    ensures failed { (undo : Undo) (mine : List Made) (place : ℕ) → StandsFor undo mine
        → end_of undo ≡ Some (UndoEnd.Incomplete place) → EndsFailed place mine }
    ensures aborted { (undo : Undo) (mine : List Made) (place : ℕ) → StandsFor undo mine
        → end_of undo ≡ Some (UndoEnd.Incomplete place) → HasAborted undo.attempt mine }
{}

/// The same of all calls that close the attempt, where it made these commits before. They are what its
/// log is held to.
pub fn undos_end_attempts()
    ensures undone { (undo : Undo) (mine commits calls : List Made) → StandsFor undo mine
        → end_of undo ≡ Some UndoEnd.RolledBack
        → IsUndone undo.attempt calls (mine ++ commits) }
    ensures unfailed { (undo : Undo) (mine commits : List Made) → StandsFor undo mine
        → AreCommits commits → end_of undo ≡ Some UndoEnd.RolledBack
        → Each (λ m before. HasAborted undo.attempt (m ∷ before) → m.answer.reply ≢ reply.Failed) (mine ++ commits) }
    ensures failed { (undo : Undo) (mine commits : List Made) (place : ℕ) → StandsFor undo mine
        → end_of undo ≡ Some (UndoEnd.Incomplete place)
        → Once (λ m before. (m.answer.place ≡ place) × (m.answer.reply ≡ reply.Failed) × HasAborted undo.attempt (m ∷ before)) (mine ++ commits) }
{}

/// A rollback asks for a call exactly where it has not ended.
pub fn undos_go_on()
    ensures ended { (undo : Undo) → end_of undo ≢ None → step_of undo ≡ None }
    ensures asks { (undo : Undo) (mine : List Made) → StandsFor undo mine → end_of undo ≡ None
        → step_of undo ≢ None }
{}

/// Each call of a rollback, and the one that it asks for, is one with which its attempt may close, after
/// the commits that the attempt made before: an abort, one reading and one unstick of each document
/// that the abort lists, and a drop.
pub fn undos_close()
    ensures calls { (undo : Undo) (own : List ℕ → Option Own) (mine commits : List Made) → StandsFor undo mine
        → IsOf own (task_of undo) → AreCommits commits
        → Each (λ m past. MayClose undo.attempt (past ++ commits) m.step) mine }
    ensures asked { (undo : Undo) (own : List ℕ → Option Own) (mine commits : List Made) (s : Step) → StandsFor undo mine
        → IsOf own (task_of undo) → AreCommits commits
        → step_of undo ≡ Some s → MayClose undo.attempt (mine ++ commits) s }
{}

/// Each call that a rollback asks for is licensed by its client's whole own list, where the list before
/// its beginning was ready for it.
pub fn undos_are_licensed()
    ensures { (who : Identity) (undo : Undo) (mine before : List Made) (s : Step) → StandsFor undo mine
        → IsReady (task_of undo) before → step_of undo ≡ Some s → MayTake who (mine ++ before) s }
{}
