//! The trait of an actor: a client or a cleaner.
ghost use Rattle.std.specs.Prelude.{◌≡◌, ℕ, ◌+◌, ◌^◌, ◌<◌, ◌≤◌, Bool, true, None, Some, Option, List, [], ◌∷◌, length, IsTrue, IsSome, IsErr, IfOk, IfSome, OnOk, OnErr};
ghost use Rattle.cbt_model.specs.Fitting.{fits, step_fits};
ghost use Rattle.cbt_model.specs.declared.events.Made.{Made};
ghost use Rattle.cbt_model.specs.declared.steps.Step.{Step};

use crate::events::Answer;
use crate::steps::Step;
use cbt_base::NoMemory;
use std::alloc::Global;

/// An actor, which calls a node step by step and learns each answer.
pub trait Actor {
    /// It stands for its own list: the steps that it made with their answers, newest first. This
    /// list is not kept at run time.
    ghost stands_for: { Self → List Made → Type 0 };

    /// The step to make now.
    ghost step_now: { Self → Option Step };

    /// It was stopped.
    ghost is_stopped: { Self → Bool };

    /// How many calls it can still make at most.
    ghost calls_left: { Self → ℕ };

    /// Both were made with the same: the same kind of actor, with the same arguments.
    ghost same_origin: { Self → Self → Type 0 };

    /// Where the first is stopped, it is the second.
    ghost stopped_as: { Self → Self → Type 0 };

    /// The step to make now; none where it has ended or is stopped.
    fn next(&self, alloc: Global) -> Result<Option<Step>, NoMemory>
        ensures step { IfOk result (λ step. step ≡ step_now self.now) }
        ensures fits { IfOk result (λ step. IfSome step (λ s. IsTrue (step_fits s))) };

    /// Takes in the answer to the step that `next` gave.
    ///
    /// After `NoMemory` the answer counts too, and the actor is stopped.
    fn learn(&mut self, alloc: Global, answer: Answer) -> Result<(), NoMemory>
        requires asked { IsSome (step_now self.old) }
        requires fits { (s : Step) → step_now self.old ≡ Some s → IsTrue (fits s answer.reply) }
        requires place { answer.place < 2 ^ 62 }
        ensures stands { (l : List Made) (s : Step) → step_now self.old ≡ Some s → stands_for self.old l
            → stands_for self.new (record { step = s; answer = answer } ∷ l) }
        ensures fewer { calls_left self.new < calls_left self.old }
        ensures ok { OnOk result (is_stopped self.new ≡ is_stopped self.old) }
        ensures refused { OnErr result (is_stopped self.new ≡ true) }

        // The number of calls fits its type.
        ensures last { (l : List Made) → stands_for self.old l → 2 ^ 62 ≤ length l + 1
            → IsErr result }
        ensures origin { same_origin self.old self.new };

    /// How many calls it made. It takes no memory.
    fn calls(&self) -> u64
        ensures { (l : List Made) → stands_for self.now l → result ≡ length l };

    /// Stops it: what is under way ends as stopped. It takes no memory.
    fn stop(&mut self)
        ensures stands { (l : List Made) → stands_for self.old l → stands_for self.new l }
        ensures stopped { is_stopped self.new ≡ true }
        ensures as_it_was { stopped_as self.old self.new }
        ensures none_left { calls_left self.new ≡ 0 }
        ensures origin { same_origin self.old self.new };

    /// Where no call is left there is no step.
    ghost at_end: { (a : Self) → calls_left a ≡ 0 → step_now a ≡ None };

    /// A stopped actor has no step.
    ghost when_stopped: { (a : Self) → is_stopped a ≡ true → step_now a ≡ None };

    ghost origin_itself: { (a : Self) → same_origin a a };

    ghost origin_along: { (a b c : Self) → same_origin a b → same_origin b c → same_origin a c };
}
