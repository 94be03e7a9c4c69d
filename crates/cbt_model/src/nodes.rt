//! The trait of a node.
ghost use Rattle.std.specs.Prelude.{◌≡◌, ℕ, ◌+◌, ◌^◌, ◌<◌, ◌≤◌, None, Some, List, [], ◌∷◌, ◌++◌, length, IsTrue, IfOk, OnOk, OnErr};
ghost use Rattle.cbt_model.specs.Faults.{fate_of};
ghost use Rattle.cbt_model.specs.Fitting.{fits, step_fits};
ghost use Rattle.cbt_model.specs.History.{reply_at, now_at};
ghost use Rattle.cbt_model.specs.Legal.{Terms, calls_below, AreReadings, KeepsTerms, AddsOne};
ghost use Rattle.cbt_model.specs.declared.events.Event.{Event};
ghost use Rattle.cbt_model.specs.declared.events.Mark.{Mark};
ghost use Rattle.cbt_model.specs.declared.states.State.{State};

use crate::events::{Answer, Kept};
use crate::steps::Step;
use cbt_base::NoMemory;

/// A node that keeps the history of its calls.
pub trait Node {
    /// The state that it began with.
    ghost opening: { Self → State };

    /// Its calls, in order.
    ghost history: { Self → List Event };

    /// Where its clock was moved ahead.
    ghost marks: { Self → List Mark };

    /// Under what it makes its calls.
    ghost terms: { Self → Terms };

    /// Its clock may tell its readings: the i-th call from the beginning is made at the i-th of
    /// these.
    ghost reads_by: { Self → (ℕ → ℕ) → Type 0 };

    /// Makes a call: it adds one event to the history.
    ///
    /// On `NoMemory` no event was added and nothing has changed.
    fn call(&mut self, actor: u32, step: Step) -> Result<Answer, NoMemory>
        requires { IsTrue (step_fits step) }

        // The fate is the one that the faults name for this call's number among the actor's calls.
        ensures event { OnOk result (AddsOne (history self.old) (history self.new) actor step
            (fate_of (terms self.old).faults actor
            (calls_below (history self.old) actor (length (history self.old)) + 1))) }
        ensures place { IfOk result (λ answer. answer.place ≡ length (history self.old)) }
        ensures small { IfOk result (λ answer. answer.place < 2 ^ 62) }
        ensures reply { IfOk result (λ answer.
            reply_at (opening self.old) (history self.new) answer.place ≡ Some answer.reply) }
        ensures now { IfOk result (λ answer.
            answer.now ≡ now_at (opening self.old) (history self.new) answer.place) }
        ensures fits { IfOk result (λ answer. IsTrue (fits step answer.reply)) }
        ensures refused { OnErr result (history self.new ≡ history self.old) }
        ensures opening { opening self.new ≡ opening self.old }
        ensures marks { marks self.new ≡ marks self.old }
        ensures terms { terms self.new ≡ terms self.old }
        ensures readings { (f : ℕ → ℕ) → reads_by self.old f → reads_by self.new f };

    /// Moves the clock ahead: later readings are larger by `ms` milliseconds.
    ///
    /// On `NoMemory` nothing has changed.
    fn advance(&mut self, ms: u64) -> Result<(), NoMemory>
        ensures marked { OnOk result (marks self.new
            ≡ marks self.old ++ record { place = length (history self.old); ms = ms } ∷ []) }
        ensures refused { OnErr result (marks self.new ≡ marks self.old) }
        ensures history { history self.new ≡ history self.old }
        ensures opening { opening self.new ≡ opening self.old }
        ensures terms { terms self.new ≡ terms self.old }
        ensures readings { (f : ℕ → ℕ) → reads_by self.old f → reads_by self.new f };

    /// What it kept. It takes no memory.
    fn finish(self) -> Kept
        ensures opening { result.opening ≡ opening self }
        ensures history { result.history ≡ history self }
        ensures marks { result.marks ≡ marks self };

    /// Its history keeps its terms.
    ghost keeps_terms: { (n : Self) → KeepsTerms (terms n) (history n) (marks n) };

    /// The places of its calls fit their type.
    ghost stays_short: { (n : Self) → length (history n) ≤ 2 ^ 62 };

    /// Without a clock line, its readings are those of its clock, where the clock tells them.
    ghost reads_right: { (n : Self) (f : ℕ → ℕ) → reads_by n f → (terms n).line ≡ None
        → AreReadings f (history n) (marks n) };
}
