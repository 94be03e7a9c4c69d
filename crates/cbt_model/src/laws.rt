//! Laws of the step table and of fates, for contracts above to rest on. Each function does nothing:
//! what it ensures is the law.
ghost use Rattle.std.specs.Prelude.{◌≡◌, ◌≢◌, ℕ, ◌⊎◌, ◌↔◌, true, false, List, Some, None};
ghost use Rattle.cbt_base.specs.Clock.{clock_read, clock_mutated};
ghost use Rattle.cbt_model.specs.History.{is_done, outcome, happens};
ghost use Rattle.cbt_model.specs.Keys.{IsOrdered, doc_at, entry_at};
ghost use Rattle.cbt_model.specs.Table.{apply_to, touches, touches_doc};
ghost use Rattle.cbt_model.specs.declared.events.Event.{Event};
ghost use Rattle.cbt_model.specs.declared.states.State.{State};
ghost use Rattle.cbt_model.specs.declared.steps.Step.{Step};

use crate::events::Fate;
use crate::steps::Reply;

/// A step that is refused moves the clock as a read does, and changes nothing else.
pub fn refused_steps_change_nothing()
    ensures { (s : State) (r : ℕ) (step : Step) → is_done (apply_to s r step).1 ≡ false
        → (apply_to s r step).0 ≡ record s { last = clock_read s.last r } }
{}

/// A step that takes effect answers its stamp, and moves the clock to it.
pub fn done_steps_have_their_stamp()
    ensures reply { (s : State) (r : ℕ) (step : Step) → is_done (apply_to s r step).1 ≡ true
        → (apply_to s r step).1 ≡ Reply.Done (clock_mutated s.last r) }
    ensures clock { (s : State) (r : ℕ) (step : Step) → is_done (apply_to s r step).1 ≡ true
        → (apply_to s r step).0.last ≡ clock_mutated s.last r }
{}

/// A step changes at most one document, one entry, or the rows of the client record.
pub fn steps_change_one_key()
    ensures documents { (s : State) (r : ℕ) (step : Step) (doc : List ℕ)
        → touches_doc step ≢ Some doc → doc_at (apply_to s r step).0 doc ≡ doc_at s doc }
    ensures entries { (s : State) (r : ℕ) (step : Step) (key : ℕ × ℕ)
        → IsOrdered s → touches step ≢ Some key → entry_at (apply_to s r step).0 key ≡ entry_at s key }
    ensures rows { (s : State) (r : ℕ) (step : Step)
        → (touches_doc step ≢ None) ⊎ (touches step ≢ None) → (apply_to s r step).0.clients ≡ s.clients }
    ensures either { (step : Step) → (touches_doc step ≡ None) ⊎ (touches step ≡ None) }
{}

/// A lost call moves the clock as a read does and changes nothing else; each other call has its
/// step's effect. An answer is `Failed` exactly where the call was lost or late.
pub fn fates_of_calls()
    ensures lost { (s : State) (e : Event) → e.fate ≡ Fate.Lost
        → happens s e ≡ record s { last = clock_read s.last e.reading } }
    ensures others { (s : State) (e : Event) → e.fate ≢ Fate.Lost
        → happens s e ≡ (apply_to s e.reading e.step).0 }
    ensures failed { (s : State) (e : Event) → e.fate ≢ Fate.Plain
        → (outcome s e).reply ≡ Reply.Failed }
    ensures plain { (s : State) (e : Event) → e.fate ≡ Fate.Plain
        → ((outcome s e).reply ≡ (apply_to s e.reading e.step).1)
        × ((outcome s e).reply ≢ Reply.Failed) }
{}
