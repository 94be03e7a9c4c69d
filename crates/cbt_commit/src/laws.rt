//! What the calls of a commit come to, whatever fitting answers they had. Each function does nothing:
//! what it ensures is the law. They take no memory.

ghost use Rattle.std.specs.Prelude.{◌≡◌, ◌≢◌, ℕ, ◌+◌, ◌≤◌, Bool, List, ◌++◌, length, Some, None};
ghost use Rattle.cbt_model.specs.declared.events.Made.{Made};
ghost use Rattle.cbt_model.specs.declared.steps.Step.{Step};
ghost use Rattle.cbt_attempt.specs.Notes.{IsQuiet};
ghost use Rattle.cbt_book.specs.Closing.{CommitHolds, IsFinished, MayClose, ThirdInVain};
ghost use Rattle.cbt_book.specs.Licence.{CommitsUnsettled, MayTake};
ghost use Rattle.cbt_book.specs.Numbers.{Identity};
ghost use Rattle.cbt_book.specs.OwnLists.{Each};
ghost use Rattle.cbt_book.specs.Shown.{aborts};
ghost use Rattle.cbt_commit.specs.Ends.{IsLastInDoubt, LosesEntry, OnlySettles, StaysUnknown};
ghost use Rattle.cbt_commit.specs.Phases.{calls_left, end_of, step_of, task_of};
ghost use Rattle.cbt_commit.specs.Ready.{IsReady};
ghost use Rattle.cbt_commit.specs.Standing.{StandsFor};
ghost use Rattle.cbt_commit.specs.declared.finishes.Finish.{Finish};

use crate::phases::FinishEnd;

/// What a commit has ended with is so by its calls. The attempt is committed, and all of it is
/// published or some call failed; or its entry was not there; or its third commit was in vain, and its
/// calls did nothing else than to commit it and to read its entry; or nobody knows what became of it.
pub fn commits_end_right()
    ensures committed { (finish : Finish) (mine : List Made) (place : ℕ) (complete : Bool) → StandsFor finish mine
        → end_of finish ≡ Some (FinishEnd.Committed place complete)
        → CommitHolds finish.attempt place mine × IsFinished finish.attempt mine complete }
    ensures entry_lost { (finish : Finish) (mine : List Made) (place : ℕ) → StandsFor finish mine
        → end_of finish ≡ Some (FinishEnd.EntryLost place) → LosesEntry finish.attempt place mine }
    ensures not_committed { (finish : Finish) (mine : List Made) (place : ℕ) → StandsFor finish mine
        → end_of finish ≡ Some (FinishEnd.NotCommitted place)
        → ThirdInVain finish.attempt mine × OnlySettles finish.attempt mine × IsLastInDoubt finish.attempt place mine }
    ensures unknown { (finish : Finish) (mine : List Made) (commit reading : ℕ) → StandsFor finish mine
        → end_of finish ≡ Some (FinishEnd.Unknown commit reading) → StaysUnknown finish.attempt commit reading mine }
    // Only then was there a third commit in vain.
    ensures third { (finish : Finish) (mine : List Made) → StandsFor finish mine
        → ((place : ℕ) → end_of finish ≢ Some (FinishEnd.NotCommitted place)) → ¬ ThirdInVain finish.attempt mine }
{}

/// Each call of a commit is one that may close its attempt.
pub fn commits_close()
    ensures { (finish : Finish) (mine : List Made) → StandsFor finish mine
        → Each (λ m past. MayClose finish.attempt past m.step) mine }
{}

/// Each call that a commit asks for is licensed by its client's whole own list, where all had gone well
/// for the attempt before it began.
pub fn commits_are_licensed()
    ensures { (who : Identity) (finish : Finish) (l0 mine : List Made) (s : Step) → IsReady (task_of finish) l0
        → StandsFor finish mine → step_of finish ≡ Some s → MayTake who (mine ++ l0) s }
{}

/// The calls of a commit leave the own writes of its attempt as they are noted, and abort nothing. Where
/// the third commit was in vain the attempt's commits are unsettled, as an abort needs them to be.
pub fn commits_leave_writes()
    ensures quiet { (finish : Finish) (mine : List Made) → StandsFor finish mine
        → Each (λ m _. IsQuiet finish.attempt m.step) mine }
    ensures unaborted { (finish : Finish) (mine : List Made) → StandsFor finish mine → Each (λ m _. aborts m.step ≡ None) mine }
    ensures unsettled { (finish : Finish) (l0 mine : List Made) (place : ℕ) → IsReady (task_of finish) l0 → StandsFor finish mine
        → end_of finish ≡ Some (FinishEnd.NotCommitted place) → CommitsUnsettled (mine ++ l0) finish.atr finish.attempt }
{}

/// After each call a commit of n own writes has so many calls left that it makes at most n + 7. None is
/// left exactly where it asks for none.
pub fn commits_stay_bounded()
    ensures few { (finish : Finish) (mine : List Made) → StandsFor finish mine
        → length mine + calls_left finish ≤ length finish.works.entries + 7 }
    ensures at_end { (finish : Finish) → calls_left finish ≡ 0 → step_of finish ≡ None }
    ensures ended { (finish : Finish) → step_of finish ≡ None → calls_left finish ≡ 0 }
{}
