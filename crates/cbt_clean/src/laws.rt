//! What the calls of a pass come to, whatever fitting answers they had. Each function does nothing: what
//! it ensures is the law. They take no memory.

ghost use Rattle.std.specs.Prelude.{◌≡◌, ◌≢◌, ℕ, ◌+◌, ◌≤◌, true, false, List, [], ◌∷◌, ◌++◌, length, Some, None};
ghost use Rattle.std.specs.List.{sum_by};
ghost use Rattle.cbt_model.specs.declared.events.Made.{Made};
ghost use Rattle.cbt_model.specs.declared.steps.Step.{Step};
ghost use Rattle.cbt_model.specs.declared.steps.Step.TheVariants as step;
ghost use Rattle.cbt_book.specs.Licence.{MayTake};
ghost use Rattle.cbt_book.specs.Numbers.{Identity};
ghost use Rattle.cbt_book.specs.OwnLists.{Each};
ghost use Rattle.cbt_book.specs.Passes.{covered_by, EndsPass, PassCalls};
ghost use Rattle.cbt_book.specs.Shown.{adds, decides};
ghost use Rattle.cbt_clean.specs.Phases.{calls_by, calls_due, calls_left, end_of, step_of};
ghost use Rattle.cbt_clean.specs.Ready.{cleans, DecidesNothing};
ghost use Rattle.cbt_clean.specs.Standing.{StandsFor};
ghost use Rattle.cbt_clean.specs.declared.passes.Pass.{Pass};

use crate::phases::Phase;
use cbt_book::PassEnd;

/// What a pass has ended with is so by its calls, of which the first is its reading of the record: each
/// attempt that this showed expired is finished and no call failed, or the newest call was the first one
/// that failed, at the place named.
pub fn passes_end_right()
    ensures ends { (pass : Pass) (first : Made) (later : List Made) (end : PassEnd)
        → StandsFor pass (later ++ first ∷ []) → end_of pass ≡ Some end
        → EndsPass pass.atr first (later ++ first ∷ []) end }
    // At each moment its calls are those of a pass.
    ensures calls { (pass : Pass) (first : Made) (later : List Made)
        → StandsFor pass (later ++ first ∷ []) → PassCalls pass.atr first later }
    ensures reads { (pass : Pass) (mine : List Made) → StandsFor pass mine → end_of pass ≢ None
        → (first : Made) × (later : List Made) × (mine ≡ later ++ first ∷ []) }
{}

/// While a pass has not ended, its calls come to no end, so a pass that is cut off is none that has ended.
pub fn passes_stay_open()
    ensures opens { (pass : Pass) (first : Made) (later : List Made) (end : PassEnd)
        → StandsFor pass (later ++ first ∷ []) → end_of pass ≡ None
        → ¬ EndsPass pass.atr first (later ++ first ∷ []) end }
    // A reading that shows expired entries is the first call of a pass, and not its last.
    ensures refused { (r : ℕ) (first : Made) → first.step ≡ step.ReadAtr r
        → covered_by first.answer.reply first.answer.now ≢ []
        → PassCalls r first [] × ((end : PassEnd) → ¬ EndsPass r first (first ∷ []) end) }
{}

/// Each call that a pass asks for is licensed by its cleaner's whole own list, where nothing was decided
/// in the list before its beginning.
pub fn passes_are_licensed()
    ensures { (who : Identity) (pass : Pass) (mine before : List Made) (s : Step) → StandsFor pass mine
        → DecidesNothing before → step_of pass ≡ Some s → MayTake who (mine ++ before) s }
{}

/// A pass asks for a call exactly where it has not ended.
pub fn passes_go_on()
    ensures ended { (pass : Pass) → end_of pass ≢ None → step_of pass ≡ None }
    ensures asks { (pass : Pass) (mine : List Made) → StandsFor pass mine → end_of pass ≡ None
        → step_of pass ≢ None }
{}

/// The calls that a pass has made behind its reading of the record, and those that it still makes for
/// what its answers list, are no more than follow from these answers: three for each covered attempt, two
/// for each document that its entry lists, and two for each that an entry lists which was read for itself.
/// It asks for none where none is left, and none is left where it has ended.
pub fn passes_stay_bounded()
    ensures few { (pass : Pass) (first : Made) (later : List Made)
        → StandsFor pass (later ++ first ∷ [])
        → length later + calls_due pass ≤ sum_by (λ m. calls_by m.answer.reply m.answer.now) (later ++ first ∷ []) }
    ensures at_end { (pass : Pass) → calls_left pass ≡ 0 → step_of pass ≡ None }
    ensures ended { (pass : Pass) → end_of pass ≢ None → calls_left pass ≡ 0 }
{}

/// No call of a pass adds an entry, stages a document or decides an attempt.
pub fn passes_only_clean()
    ensures calls { (pass : Pass) (mine : List Made) → StandsFor pass mine
        → Each (λ m _. cleans m.step ≡ true) mine }
    ensures asked { (pass : Pass) (s : Step) → step_of pass ≡ Some s → cleans s ≡ true }
    ensures adds_none { (s : Step) → cleans s ≡ true → adds s ≡ None }
    ensures decides_none { (s : Step) → cleans s ≡ true → decides s ≡ None }
{}
