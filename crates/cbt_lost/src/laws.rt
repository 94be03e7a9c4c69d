//! What the calls of a cleaner come to. Each function does nothing: what it ensures is the law. They take
//! no memory.

ghost use Rattle.std.specs.Prelude.{◌≡◌, ◌↔◌, ℕ, true, false, List, length, Option, None, Some};
ghost use Rattle.cbt_model.specs.declared.events.Made.{Made};
ghost use Rattle.cbt_model.specs.declared.steps.Step.{Step};
ghost use Rattle.cbt_book.specs.Cleaners.{AtLast, CleanerFollows, HasNext, SweepFollows};
ghost use Rattle.cbt_book.specs.Licence.{IsLicensed, MayTake};
ghost use Rattle.cbt_book.specs.Numbers.{Identity};
ghost use Rattle.cbt_book.specs.OwnLists.{Descends};
ghost use Rattle.cbt_lost.specs.Cleaning.{cleaner_log_of, has_ended, step_now, StandsFor};
ghost use Rattle.cbt_lost.specs.Rounds.{plan_of};
ghost use Rattle.cbt_lost.specs.declared.cleaners.Cleaner.{Cleaner};

/// Each call that a cleaner made, and the one that it asks for, is licensed by its own list, whatever
/// fitting answers came.
pub fn cleaners_are_licensed()
    ensures made { (who : Identity) (c : Cleaner) (l : List Made) → who.cleaner ≡ c.terms.id → StandsFor c l
        → IsLicensed who l }
    ensures asked { (who : Identity) (c : Cleaner) (l : List Made) (s : Step) → who.cleaner ≡ c.terms.id → StandsFor c l
        → step_now c ≡ Some s → MayTake who l s }
{}

/// What a cleaner tells at any moment follows its plan, on each own list that it stands for and whose
/// places fall.
pub fn cleaners_tell()
    ensures cleaner { (c : Cleaner) (l : List Made) (stop : Option ℕ) → StandsFor c l → Descends l → c.terms.sweep ≡ false
        → CleanerFollows (plan_of c.terms (length c.logs) stop) l (cleaner_log_of c) }
    ensures sweep { (c : Cleaner) (l : List Made) (stop : Option ℕ) → StandsFor c l → Descends l → c.terms.sweep ≡ true
        → SweepFollows (plan_of c.terms (length c.logs) stop) l (cleaner_log_of c) }
    ensures calls { (c : Cleaner) (l : List Made) → StandsFor c l → (cleaner_log_of c).calls ≡ length l }
    // It says that it was stopped exactly where some round has not ended.
    ensures stopped { (c : Cleaner) → (cleaner_log_of c).stopped ≡ true ↔ (has_ended c ≡ false) }
    // That is so only of a cleaner that was stopped, or that goes on.
    ensures asks { (c : Cleaner) (l : List Made) → StandsFor c l → has_ended c ≡ false → step_now c ≡ None
        → c.stopped ≡ true }
    // Its last round then had a call to make.
    ensures next { (c : Cleaner) (l : List Made) (stop : Option ℕ) → StandsFor c l → Descends l → c.terms.sweep ≡ false
        → (cleaner_log_of c).stopped ≡ true
        → AtLast (HasNext (plan_of c.terms (length c.logs) stop) l) (cleaner_log_of c).rounds }
{}
