//! A cleaner: its rounds, one after another, and the log that it keeps of them.

ghost use Rattle.std.specs.Prelude.{◌≡◌, ◌<◌, ◌≤◌, ◌↔◌, ◌^◌, ℕ, false, true, List as Seq, [], ◌∷◌, length, None, Some, Option as Maybe, IsSome, IsTrue, IfOk, OnOk, OnErr};
ghost use Rattle.cbt_model.specs.Fitting.{fits};
ghost use Rattle.cbt_model.specs.declared.steps.Step.{Step};
ghost use Rattle.cbt_model.specs.declared.events.Made.{Made};
ghost use Rattle.cbt_book.specs.Cleaners.{CleanerFollows, SweepFollows};
ghost use Rattle.cbt_book.specs.OwnLists.{Descends};
ghost use Rattle.cbt_lost.specs.Cleaning.{calls_left, cleaner_log_of, has_ended, none_asked, rounds_told, running_left, settled, step_now, Comes, StandsFor};
ghost use Rattle.cbt_lost.specs.Rounds.{plan_of};

use crate::rounds::{Round, Terms};
use cbt_base::{Id, List, NoMemory};
use cbt_book::{CleanerLog, RoundLog, Span};
use cbt_model::{Actor, Answer, Step};
use std::alloc::Global;

/// A cleaner. It is an actor over the passes of its rounds.
#[derive(Drop)]
pub struct Cleaner {
    pub terms: Terms,
    /// A log a round; those of rounds that have not ended have no call.
    pub logs: List<RoundLog>,
    /// How many rounds have ended.
    pub at: usize,
    /// The round under way, where not all have ended.
    pub round: Round,
    pub calls: u64,
    pub stopped: bool,
}

impl Cleaner {
    /// A cleaner that makes so many rounds over its share of `atrs` records. Its row counts as active
    /// for `lapse` milliseconds after each beat.
    pub fn begin(
        alloc: Global,
        id: Id,
        rounds: u32,
        atrs: u16,
        lapse: u64,
    ) -> Result<Cleaner, NoMemory>
        ensures stands { IfOk result (λ c. StandsFor c []) }
        ensures runs { IfOk result (λ c. c.stopped ≡ false) }
        ensures terms { IfOk result (λ c. c.terms ≡ record { id = id; atrs = atrs; lapse = lapse; sweep = false }) }
        ensures rounds { IfOk result (λ c. length c.logs ≡ rounds) }
    {
        let logs = unbegun(alloc, rounds)?;
        Ok(Cleaner {
            terms: Terms {
                id,
                atrs,
                lapse,
                sweep: false,
            },
            logs,
            at: 0,
            round: Round::begin(alloc, 0),
            calls: 0,
            stopped: false,
        })
    }

    /// A sweep: one round over all of `atrs` records, without the client record.
    pub fn sweep(alloc: Global, id: Id, atrs: u16) -> Result<Cleaner, NoMemory>
        ensures stands { IfOk result (λ c. StandsFor c []) }
        ensures runs { IfOk result (λ c. c.stopped ≡ false) }
        ensures terms { IfOk result (λ c. c.terms ≡ record { id = id; atrs = atrs; lapse = 0; sweep = true }) }
        ensures rounds { IfOk result (λ c. length c.logs ≡ 1) }
    {
        let logs = unbegun(alloc, 1)?;
        let round = Round::sweep(alloc, atrs)?;
        let mut cleaner = Cleaner {
            terms: Terms {
                id,
                atrs,
                lapse: 0,
                sweep: true,
            },
            logs,
            at: 0,
            round,
            calls: 0,
            stopped: false,
        };
        cleaner.settle(alloc, 0);
        Ok(cleaner)
    }

    // The round under way takes the answer in. Where there is no memory for that it is cut off.
    fn take_in(&mut self, alloc: Global, answer: Answer) -> Result<(), NoMemory>
        requires asked { IsSome (step_now self.old) }
        requires fits { (s : Step) → step_now self.old ≡ Some s → IsTrue (fits s answer.reply) }
        requires place { answer.place < 2 ^ 62 }
        ensures follows { (l : Seq Made) (s : Step) (stop : Maybe ℕ) → step_now self.old ≡ Some s → StandsFor self.old l
            → OnOk result (Comes (plan_of self.old.terms (length self.old.logs) stop) self.new (record { step = s; answer = answer } ∷ l)) }
        ensures halts { (l : Seq Made) (s : Step) (stop : Maybe ℕ) → step_now self.old ≡ Some s → StandsFor self.old l
            → OnErr result (Comes (plan_of self.old.terms (length self.old.logs) stop) (record self.new { stopped = true }) (record { step = s; answer = answer } ∷ l)) }
        ensures fewer { OnOk result (calls_left self.new < calls_left self.old) }
        ensures within { (self.new.at ≤ length self.new.logs) × (length self.new.logs ≡ length self.old.logs) }
        ensures rest { self.new ≡ record self.old { logs = self.new.logs; at = self.new.at; round = self.new.round } }
    {
        let past = answer.place + 1;
        self.round.learn(alloc, self.terms, answer)?;
        self.settle(alloc, past);
        Ok(())
    }

    // Where the round under way is over it is told, and the next one is to begin. The newest call so far
    // stands before the place `past`.
    fn settle(&mut self, alloc: Global, past: u64)
        ensures { self.new ≡ settled past self.old }
    {
        if self.round.is_over() && self.at < self.logs.len() {
            let round = std::mem::replace(&mut self.round, Round::begin(alloc, past));
            self.logs.set(self.at, round.into_log());
            self.at += 1;
        }
    }

    /// Whether all its rounds have ended.
    pub fn has_ended(&self) -> bool
        ensures { result ≡ has_ended self.now }
    {
        self.logs.len() <= self.at
    }

    /// What it did. Where it was stopped, its last round is the one that it was in. It takes no memory.
    pub fn into_log(self) -> CleanerLog
        ensures log { result ≡ cleaner_log_of self }
        ensures cleaner { (l : Seq Made) (stop : Maybe ℕ) → StandsFor self l → Descends l → self.terms.sweep ≡ false
            → CleanerFollows (plan_of self.terms (length self.logs) stop) l result }
        ensures sweep { (l : Seq Made) (stop : Maybe ℕ) → StandsFor self l → Descends l → self.terms.sweep ≡ true
            → SweepFollows (plan_of self.terms (length self.logs) stop) l result }
        ensures calls { (l : Seq Made) → StandsFor self l → result.calls ≡ length l }
        // It says that it was stopped exactly where some round has not ended.
        ensures stopped { (result.stopped ≡ true) ↔ (has_ended self ≡ false) }
        // That is so only of a cleaner that was stopped, or that goes on.
        ensures asks { (l : Seq Made) → StandsFor self l → has_ended self ≡ false → step_now self ≡ None → self.stopped ≡ true }
    {
        let Cleaner {
            terms,
            logs,
            at,
            round,
            calls,
            stopped: _stopped,
        } = self;
        let stopped = at < logs.len();
        CleanerLog {
            id: terms.id,
            rounds: told(logs, at, round),
            stopped,
            calls,
        }
    }
}

impl Actor for Cleaner {
    ghost use Rattle.std.specs.Prelude.{refl};
    ghost use Rattle.std.proofs.Common.{◌∙◌, rules};

    ghost stands_for = { λ c l. StandsFor c l };

    ghost step_now = { λ c. step_now c };

    ghost is_stopped = { λ c. c.stopped };

    ghost calls_left = { λ c. calls_left c };

    ghost same_origin = { λ a b. (a.terms ≡ b.terms) × (length a.logs ≡ length b.logs) };

    ghost stopped_as = { λ a b. b ≡ record a { stopped = true } };

    fn next(&self, alloc: Global) -> Result<Option<Step>, NoMemory> {
        if self.stopped || self.logs.len() <= self.at {
            return Ok(None);
        }
        self.round.next(alloc, self.terms)
    }

    fn learn(&mut self, alloc: Global, answer: Answer) -> Result<(), NoMemory> {
        let taken = self.take_in(alloc, answer);
        self.calls = self.calls.saturating_add(1);
        if taken.is_ok() && self.calls < 1 << 62 {
            return Ok(());
        }
        self.stopped = true;
        Err(NoMemory)
    }

    fn calls(&self) -> u64 {
        self.calls
    }

    fn stop(&mut self) {
        self.stopped = true;
    }

    ghost at_end = { λ a none. none_asked (step_now a) (running_left a) none };

    ghost when_stopped = { Prim.search rules };

    ghost origin_itself = { λ a. (refl, refl) };

    ghost origin_along = { λ a b c p q. (p.0 ∙ q.0, p.1 ∙ q.1) };
}

// Logs of so many rounds that were not begun.
fn unbegun(alloc: Global, count: u32) -> Result<List<RoundLog>, NoMemory>
    ensures { IfOk result (λ logs. length logs ≡ count) }
{
    let mut logs = List::new(alloc);
    for _ in 0..count {
        logs.push(RoundLog {
            span: Span { from: 0, to: 0 },
            share: None,
            passes: List::new(alloc),
        })?;
    }
    Ok(logs)
}

// The logs of the rounds that have ended, and of the one behind them, if there is one.
fn told(mut logs: List<RoundLog>, at: usize, round: Round) -> List<RoundLog>
    ensures { result ≡ rounds_told logs at round }
{
    let log = round.into_log();
    if at < logs.len() {
        logs.set(at, log);
        logs.truncate(at + 1);
        return logs;
    }
    drop(log);
    logs
}
