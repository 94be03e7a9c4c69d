//! The passes of a round, over the records of a share, one after another.

ghost use Rattle.std.specs.Prelude.{◌≡◌, ◌≢◌, ℕ, ◌+◌, ◌-◌, ◌*◌, ◌<◌, ◌≤◌, ◌^◌, List as Seq, [], ◌∷◌, ◌++◌, length, slice_set, None, Some, IsTrue, IsSome, IfOk, IfSome, IfNone, OnOk, OnErr};
ghost use Rattle.cbt_model.specs.Fitting.{fits, step_fits};
ghost use Rattle.cbt_model.specs.declared.events.Made.{Made};
ghost use Rattle.cbt_model.specs.declared.steps.Step.{Step};
ghost use Rattle.cbt_book.specs.Passes.{covered_by};
ghost use Rattle.cbt_book.specs.Spans.{past_of};
ghost use Rattle.cbt_clean.specs.Phases.{calls_left, end_of, step_of};
ghost use Rattle.cbt_clean.specs.Standing.{StandsFor};
ghost use Rattle.cbt_lost.specs.Tours.{due, grown, pass_log, tour_left, tour_step, whole_pass, AtNext, Goes, IsCutOff};

use crate::spans::grown;
use cbt_base::{List, NoMemory};
use cbt_book::{PassEnd, PassLog, Share, Span};
use cbt_clean::{Pass, Phase};
use cbt_model::{Answer, Step};
use std::alloc::Global;

/// The pass under way.
#[derive(Drop)]
pub struct Under {
    pub pass: Pass,
    /// Of its calls so far.
    pub span: Span,
}

/// Passes over the records of a share, by rising number.
#[derive(Drop)]
pub struct Tour {
    pub share: Share,
    /// The records from this number on are still to come.
    pub next: u16,
    /// The logs of the passes that have ended; behind them is a place for that of the pass under way.
    pub passes: List<PassLog>,
    /// How many passes have ended.
    pub ended: usize,
    /// The pass under way; none where all have ended, or there was no memory for the next one.
    pub under: Option<Under>,
}

impl Under {
    // The pass takes the answer in. Where there is no memory for that it is as it was.
    fn learn(&mut self, alloc: Global, answer: Answer) -> Result<(), NoMemory>
        requires asked { IsSome (step_of self.old.pass) }
        requires fits { (s : Step) → step_of self.old.pass ≡ Some s → IsTrue (fits s answer.reply) }
        requires place { answer.place < 2 ^ 62 }
        ensures stands { OnOk result ((mine : Seq Made) (s : Step) → step_of self.old.pass ≡ Some s
            → StandsFor self.old.pass mine
            → StandsFor self.new.pass (record { step = s; answer = answer } ∷ mine)) }
        ensures atr { self.new.pass.atr ≡ self.old.pass.atr }
        ensures span { self.new.span ≡ grown self.old.span answer.place }
        ensures fewer { OnOk result (calls_left self.new.pass < calls_left self.old.pass) }
        ensures first { OnErr result (self.old.pass.phase ≡ Phase.Begun) }
        ensures covers { OnErr result (covered_by answer.reply answer.now ≢ []) }
    {
        self.span = grown(self.span, answer.place);
        self.pass.learn(alloc, answer)
    }
}

impl Tour {
    // Up to its first pass. It takes no memory.
    pub(crate) fn begin(alloc: Global, share: Share) -> Tour
        ensures { result ≡ record { share = share; next = 0; passes = []; ended = 0; under = None } }
    {
        Tour {
            share,
            next: 0,
            passes: List::new(alloc),
            ended: 0,
            under: None,
        }
    }

    // The pass over the next record begins, if there is one. The cleaner's newest call so far stands
    // before the place `past`.
    pub(crate) fn go_on(&mut self, alloc: Global, atrs: u16, past: u64) -> Result<(), NoMemory>
        requires idle { self.old.under ≡ None }
        ensures follows { (base mine : Seq Made) → past ≡ past_of (mine ++ base)
            → AtNext atrs self.old base mine → OnOk result (Goes atrs self.new base mine) }
        ensures halts { (base mine : Seq Made) → AtNext atrs self.old base mine
            → OnErr result (IsCutOff atrs self.new base mine) }
        ensures share { self.new.share ≡ self.old.share }
        ensures fewer { tour_left atrs self.new ≤ (atrs - self.old.next) * whole_pass }
    {
        let Some(atr) = next_due(self.share, self.next, atrs) else {
            return Ok(());
        };
        let span = Span {
            from: past,
            to: past,
        };
        self.passes.push(PassLog {
            atr,
            span,
            end: PassEnd::CallFailed { place: past },
        })?;
        self.next = atr + 1;
        self.set_under(Under {
            pass: Pass::begin(atr),
            span,
        });
        Ok(())
    }

    // This pass is under way.
    fn set_under(&mut self, under: Under)
        ensures { self.new ≡ record self.old { under = Some under } }
    {
        self.under = Some(under);
    }

    // The pass has ended.
    fn tell(&mut self, under: Under)
        ensures told { (end : PassEnd) → end_of under.pass ≡ Some end → self.old.ended < length self.old.passes
            → self.new ≡ record self.old { passes = slice_set self.old.passes self.old.ended (pass_log under end); ended = self.old.ended + 1 } }
        ensures rest { self.new ≡ record self.old { passes = self.new.passes; ended = self.new.ended } }
    {
        let Under { pass, span } = under;
        let atr = pass.atr;
        if let Some(end) = pass.into_end() {
            if self.ended < self.passes.len() {
                self.passes.set(self.ended, PassLog { atr, span, end });
                self.ended += 1;
            }
        }
    }

    // The call to make now; none where no pass is under way.
    pub(crate) fn next(&self, alloc: Global) -> Result<Option<Step>, NoMemory>
        ensures step { IfOk result (λ step. step ≡ tour_step self.now) }
        ensures fits { IfOk result (λ step. IfSome step (λ s. IsTrue (step_fits s))) }
    {
        match &self.under {
            Some(under) => under.pass.next(alloc),
            None => Ok(None),
        }
    }

    // The pass under way takes the answer in; where it ends, the next one begins. Where there is no memory
    // for that the tour is cut off.
    pub(crate) fn learn(&mut self, alloc: Global, atrs: u16, answer: Answer) -> Result<(), NoMemory>
        requires asked { IsSome (tour_step self.old) }
        requires fits { (s : Step) → tour_step self.old ≡ Some s → IsTrue (fits s answer.reply) }
        requires place { answer.place < 2 ^ 62 }
        ensures follows { (base mine : Seq Made) (s : Step) → tour_step self.old ≡ Some s
            → Goes atrs self.old base mine
            → OnOk result (Goes atrs self.new base (record { step = s; answer = answer } ∷ mine)) }
        ensures halts { (base mine : Seq Made) (s : Step) → tour_step self.old ≡ Some s
            → Goes atrs self.old base mine
            → OnErr result (IsCutOff atrs self.new base (record { step = s; answer = answer } ∷ mine)) }
        ensures share { self.new.share ≡ self.old.share }
        ensures fewer { OnOk result (tour_left atrs self.new < tour_left atrs self.old) }
    {
        let Some(mut under) = self.under.take() else {
            unreachable!()
        };
        let past = answer.place + 1;
        under.learn(alloc, answer)?;
        if under.pass.end().is_none() {
            self.set_under(under);
            return Ok(());
        }
        self.tell(under);
        self.go_on(alloc, atrs, past)
    }
}

// The first record of a share from this number on, below `atrs`.
fn next_due(share: Share, from: u16, atrs: u16) -> Option<u16>
    ensures none { IfNone result (due share from atrs ≡ []) }
    ensures some { IfSome result (λ n. due share from atrs ≡ n ∷ due share (n + 1) atrs) }
    ensures within { IfSome result (λ n. (from ≤ n) × (n < atrs)) }
{
    for n in from..atrs {
        if share.has(n) {
            return Some(n);
        }
    }
    None
}
