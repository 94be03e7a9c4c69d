//! The node: its state with the history of its calls.

ghost use Rattle.std.specs.Prelude.{◌≡◌, ℕ, ◌+◌, ◌-◌, ◌^◌, ◌≤◌, length};
ghost use Rattle.cbt_base.specs.Clock.{held};
ghost use Rattle.cbt_plain.specs.Counts.{count_of};
ghost use Rattle.cbt_model.specs.Fitting.{HasFitBodies};
ghost use Rattle.cbt_model.specs.History.{after};
ghost use Rattle.cbt_model.specs.Legal.{KeepsTerms, ahead_at, calls_below};

use crate::counts::{next_number, set_number};
use crate::readings::next_reading;
use cbt_base::{Clock, Duplicate, List, Map, NoMemory, ms};
use cbt_model::{Answer, Event, Fate, Faults, Kept, Mark, Node, Reply, State, Step, perform};
use std::alloc::Global;

/// The most events that a history has.
const MAX_EVENTS: u64 = 1 << 62;

/// The typed node: calls change its state by the step table, and it keeps their history.
#[derive(Drop)]
pub struct Plain<C: Clock> {
    opening: State,
    state: State,
    history: List<Event>,
    marks: List<Mark>,
    faults: Faults,
    line: Option<(u64, u64)>,
    clock: C,
    // A reading that the clock gave to a call that then found no memory; the next call uses it.
    taken: Option<u64>,
    // The sum of the marks.
    ahead: u64,
    // How many events each actor has.
    calls: Map<u32, u64>,
    alloc: Global,
    ghost stands: { state ≡ after opening history (length history) },
    ghost fit: { HasFitBodies state },
    ghost within: { state.last ≤ 2 ^ 63 + length history },
    ghost short: { length history ≤ 2 ^ 62 },
    ghost counted: { (actor : ℕ) → count_of calls actor ≡ calls_below history actor (length history) },
    ghost kept: { KeepsTerms (record { faults = faults; line = line }) history marks },
    ghost marked: { (i : ℕ) → length history ≤ i → ahead ≡ held (ahead_at marks i) },
}

impl<C: Clock> Plain<C> {
    ghost use Rattle.std.specs.Prelude.{◌≡◌, ℕ, ◌+◌, ◌-◌, ◌^◌, ◌≤◌, [], length, IfOk};
    ghost use Rattle.cbt_base.specs.Clock.{clock_of};
    ghost use Rattle.cbt_model.specs.Fitting.{HasFitBodies, HasFitAttributes};
    ghost use Rattle.cbt_model.specs.History.{after};

    /// A node that no call was made on yet, over an opening state, the calls that are to fail, the
    /// clock line of a script, and a clock that is read where there is no such line.
    pub fn new(
        alloc: Global,
        opening: State,
        faults: Faults,
        line: Option<(u64, u64)>,
        clock: C,
    ) -> Result<Plain<C>, NoMemory>
        requires last { opening.last ≤ clock_of (2 ^ 43 - 1) + 2 ^ 32 }
        requires bodies { HasFitBodies opening }
        requires attributes { HasFitAttributes opening }
        ensures opening { IfOk result (λ node. ⟦<Plain<C> as Node>⟧.opening node ≡ opening) }
        ensures history { IfOk result (λ node. ⟦<Plain<C> as Node>⟧.history node ≡ []) }
        ensures marks { IfOk result (λ node. ⟦<Plain<C> as Node>⟧.marks node ≡ []) }
        ensures terms { IfOk result (λ node. ⟦<Plain<C> as Node>⟧.terms node ≡ record { faults = faults; line = line }) }
        ensures readings { IfOk result (λ node. (f : ℕ → ℕ) → C.due clock f → ⟦<Plain<C> as Node>⟧.reads_by node f) }
    {
        let state = opening.copy(alloc)?;
        Ok(Plain {
            opening,
            state,
            history: List::new(alloc),
            marks: List::new(alloc),
            faults,
            line,
            clock,
            taken: None,
            ahead: 0,
            calls: Map::new(alloc),
            alloc,
        })
    }

    /// The state now.
    pub fn state(&self) -> &State
        ensures { result.now ≡ after (⟦<Plain<C> as Node>⟧.opening self.now) (⟦<Plain<C> as Node>⟧.history self.now) (length (⟦<Plain<C> as Node>⟧.history self.now)) }
    {
        &self.state
    }
}

impl<C: Clock> Node for Plain<C> {
    ghost use Rattle.std.specs.Prelude.{◌≡◌, None};
    ghost use Rattle.cbt_plain.specs.Readings.{ReadsBy};

    ghost opening = { λ n. n.opening };

    ghost history = { λ n. n.history };

    ghost marks = { λ n. n.marks };

    ghost terms = { λ n. record { faults = n.faults; line = n.line } };

    ghost reads_by = { λ n f. n.line ≡ None → ReadsBy (C.due n.clock) n.taken n.history n.marks f };

    fn call(&mut self, actor: u32, step: Step) -> Result<Answer, NoMemory> {
        let place = self.history.len();
        if place as u64 >= MAX_EVENTS {
            return Err(NoMemory);
        }
        let number = next_number(&mut self.calls, actor)?;
        let reading = next_reading(self.line, place as u64, &mut self.clock, &mut self.taken);
        let fate = self.faults.get(actor, number).unwrap_or(Fate::Plain);
        self.history.push(Event {
            actor,
            step,
            fate,
            reading: reading.saturating_add(self.ahead),
        })?;
        let outcome = match self.history.get(place) {
            Some(event) => perform(self.alloc, &mut self.state, event),
            None => unreachable!(),
        };
        match outcome {
            Ok(happened) => {
                self.taken = None;
                set_number(&mut self.calls, actor, number);
                Ok(Answer {
                    place: place as u64,
                    now: ms(self.state.last),
                    reply: happened.reply,
                })
            }
            Err(refused) => {
                self.history.truncate(place);
                Err(refused)
            }
        }
    }

    fn advance(&mut self, ms: u64) -> Result<(), NoMemory> {
        let place = self.history.len() as u64;
        self.marks.push(Mark { place, ms })?;
        self.ahead = self.ahead.saturating_add(ms);
        Ok(())
    }

    fn finish(self) -> Kept {
        let Plain {
            opening,
            state: _,
            history,
            marks,
            faults: _,
            line: _,
            clock: _,
            taken: _,
            ahead: _,
            calls: _,
            alloc: _,
        } = self;
        Kept {
            opening,
            history,
            marks,
        }
    }

    ghost keeps_terms = { λ n. n.kept };

    ghost stays_short = { λ n. n.short };

    ghost reads_right = { λ n f by none. (by none).so_far };
}
