//! A cleaner's round.

ghost use Rattle.std.specs.Prelude.{◌≡◌, ◌≢◌, ℕ, ◌+◌, ◌*◌, ◌<◌, ◌≤◌, ◌^◌, false, true, List as Seq, [], ◌∷◌, None, Some, IsTrue, IsSome, IfOk, IfSome, OnOk, OnErr, Option as Maybe};
ghost use Rattle.cbt_model.specs.Fitting.{fits, step_fits};
ghost use Rattle.cbt_model.specs.declared.events.Made.{Made};
ghost use Rattle.cbt_model.specs.declared.steps.Step.{Step};
ghost use Rattle.cbt_model.specs.declared.steps.Reply.TheVariants as reply;
ghost use Rattle.cbt_book.specs.Spans.{past_of};
ghost use Rattle.cbt_lost.specs.Rounds.{after_reading, is_over, log_of, plan_of, round_left, round_step, work_left, Begins, Halts, IsCut, ShowsRows, Stands};
ghost use Rattle.cbt_lost.specs.Tours.{whole_pass};

use crate::gone::gone_of;
use crate::spans::grown;
use crate::tours::Tour;
use cbt_base::{Duplicate, Id, List, NoMemory};
use cbt_book::{PassLog, RoundLog, Share, Span};
use cbt_model::{Answer, Reply, Step};
use cbt_record::share;
use std::alloc::Global;

/// What each round of a cleaner is to be.
#[derive(Clone, Copy)]
pub struct Terms {
    pub id: Id,
    /// How many transaction records there are.
    pub atrs: u16,
    /// So long its row counts after a beat, in milliseconds.
    pub lapse: u64,
    /// It takes all records, and leaves the client record alone.
    pub sweep: bool,
}

/// How far a round has come.
#[derive(Drop)]
pub enum Work {
    /// The client record is to be read.
    Reading,
    /// It was read: the cleaner's own row is to be written, and those of `gone` are to be removed.
    Beating { share: Share, gone: List<Id> },
    /// The passes are under way.
    Touring { tour: Tour },
    /// It came to no share.
    Over,
}

/// A round under way.
#[derive(Drop)]
pub struct Round {
    /// Of its calls so far.
    pub span: Span,
    /// The empty list, for a log without passes.
    pub none: List<PassLog>,
    pub work: Work,
}

impl Round {
    // Up to its first call; the newest call before it stands before the place `past`. It takes no memory.
    pub(crate) fn begin(alloc: Global, past: u64) -> Round
        ensures { result ≡ record { span = record { from = past; to = past }; none = []; work = Work.Reading } }
    {
        let span = Span {
            from: past,
            to: past,
        };
        Round {
            span,
            none: List::new(alloc),
            work: Work::Reading,
        }
    }

    // The round of a sweep over so many records, up to its first call.
    pub(crate) fn sweep(alloc: Global, atrs: u16) -> Result<Round, NoMemory>
        ensures stands { IfOk result (λ round. (id lapse rounds : ℕ) (stop : Maybe ℕ)
            → Stands (plan_of (record { id = id; atrs = atrs; lapse = lapse; sweep = true }) rounds stop) true round [] []) }
    {
        let share = Share { index: 0, of: 1 };
        let mut tour = Tour::begin(alloc, share);
        tour.go_on(alloc, atrs, 0)?;
        Ok(Round {
            span: Span { from: 0, to: 0 },
            none: List::new(alloc),
            work: Work::Touring { tour },
        })
    }

    // The call to make now; none where it is over.
    pub(crate) fn next(&self, alloc: Global, terms: Terms) -> Result<Option<Step>, NoMemory>
        ensures step { IfOk result (λ step. step ≡ round_step terms self.now) }
        ensures fits { IfOk result (λ step. IfSome step (λ s. IsTrue (step_fits s))) }
    {
        match &self.work {
            Work::Reading => Ok(Some(Step::ReadClients)),
            Work::Beating { gone, .. } => {
                if gone.len() > 12 {
                    return Ok(None);
                }
                Ok(Some(Step::Beat {
                    me: terms.id,
                    expires: terms.lapse,
                    num_atrs: terms.atrs,
                    gone: gone.copy(alloc)?,
                }))
            }
            Work::Touring { tour } => tour.next(alloc),
            Work::Over => Ok(None),
        }
    }

    // It takes the answer in. Where there is no memory for that it is cut off.
    pub(crate) fn learn(
        &mut self,
        alloc: Global,
        terms: Terms,
        answer: Answer,
    ) -> Result<(), NoMemory>
        requires asked { IsSome (round_step terms self.old) }
        requires fits { (s : Step) → round_step terms self.old ≡ Some s → IsTrue (fits s answer.reply) }
        requires place { answer.place < 2 ^ 62 }
        ensures follows { (rounds : ℕ) (stop : Maybe ℕ) (before mine : Seq Made) (s : Step) → round_step terms self.old ≡ Some s
            → Stands (plan_of terms rounds stop) terms.sweep self.old before mine
            → OnOk result (Stands (plan_of terms rounds stop) terms.sweep self.new before (record { step = s; answer = answer } ∷ mine)) }
        ensures halts { (rounds : ℕ) (stop : Maybe ℕ) (before mine : Seq Made) (s : Step) → round_step terms self.old ≡ Some s
            → Stands (plan_of terms rounds stop) terms.sweep self.old before mine
            → OnErr result (IsCut (plan_of terms rounds stop) terms.sweep self.new before (record { step = s; answer = answer } ∷ mine)) }
        ensures fewer { OnOk result (round_left terms.atrs self.new < round_left terms.atrs self.old) }
    {
        self.span = grown(self.span, answer.place);
        match std::mem::replace(&mut self.work, Work::Over) {
            Work::Reading => {
                let work = after_reading(alloc, terms, answer)?;
                self.set_work(work);
                Ok(())
            }
            Work::Beating { share, gone } => {
                drop(gone);
                self.take_beat(alloc, terms.atrs, share, answer)
            }
            Work::Touring { mut tour } => {
                let learned = tour.learn(alloc, terms.atrs, answer);
                self.set_work(Work::Touring { tour });
                learned
            }
            Work::Over => unreachable!(),
        }
    }

    // It has come so far.
    fn set_work(&mut self, work: Work)
        ensures { self.new ≡ record self.old { work = work } }
    {
        self.work = work;
    }

    // The row was to be written: where it was, the passes over this share begin.
    fn take_beat(
        &mut self,
        alloc: Global,
        atrs: u16,
        share: Share,
        answer: Answer,
    ) -> Result<(), NoMemory>
        requires idle { self.old.work ≡ Work.Over }
        requires place { answer.place < 2 ^ 62 }
        ensures failed { answer.reply ≡ reply.Failed → OnOk result (self.new ≡ self.old) }
        ensures begins { (base : Seq Made) → answer.reply ≢ reply.Failed → answer.place + 1 ≡ past_of base
            → OnOk result (Begins atrs share base self.new.work) }
        ensures halts { (base : Seq Made) → answer.place + 1 ≡ past_of base
            → OnErr result (Halts atrs share base self.new.work × (answer.reply ≢ reply.Failed)) }
        ensures rest { self.new ≡ record self.old { work = self.new.work } }
        ensures few { work_left atrs self.new.work ≤ atrs * whole_pass }
    {
        let past = answer.place + 1;
        if has_failed(answer.reply) {
            return Ok(());
        }
        self.begin_tour(alloc, atrs, share, past)
    }

    // The passes over this share begin. The cleaner's newest call so far stands before the place `past`.
    fn begin_tour(
        &mut self,
        alloc: Global,
        atrs: u16,
        share: Share,
        past: u64,
    ) -> Result<(), NoMemory>
        ensures begins { (base : Seq Made) → past ≡ past_of base → OnOk result (Begins atrs share base self.new.work) }
        ensures halts { (base : Seq Made) → past ≡ past_of base → OnErr result (Halts atrs share base self.new.work) }
        ensures rest { self.new ≡ record self.old { work = self.new.work } }
        ensures few { work_left atrs self.new.work ≤ atrs * whole_pass }
    {
        let mut tour = Tour::begin(alloc, share);
        let begun = tour.go_on(alloc, atrs, past);
        self.set_work(Work::Touring { tour });
        begun
    }

    // Whether it is over.
    pub(crate) fn is_over(&self) -> bool
        ensures { result ≡ is_over self.now.work }
    {
        match &self.work {
            Work::Reading | Work::Beating { .. } => false,
            Work::Touring { tour } => tour.under.is_none(),
            Work::Over => true,
        }
    }

    // What it did. It takes no memory.
    pub(crate) fn into_log(self) -> RoundLog
        ensures { result ≡ log_of self }
    {
        let Round { span, none, work } = self;
        match work {
            Work::Touring { tour } => {
                let Tour {
                    share,
                    mut passes,
                    ended,
                    ..
                } = tour;
                passes.truncate(ended);
                RoundLog {
                    span,
                    share: Some(share),
                    passes,
                }
            }
            _ => RoundLog {
                span,
                share: None,
                passes: none,
            },
        }
    }
}

// The client record was to be read: where it was, the share is known, and the row is to be written.
fn after_reading(alloc: Global, terms: Terms, answer: Answer) -> Result<Work, NoMemory>
    ensures ok { IfOk result (λ work. work ≡ after_reading terms answer.now answer.reply) }
    ensures refused { OnErr result (ShowsRows answer.reply) }
{
    let Answer {
        place: _place,
        now,
        reply,
    } = answer;
    match reply {
        Reply::Clients(rows) => {
            let gone = gone_of(alloc, &rows, terms.id, now)?;
            let share = share(&rows, terms.id, now);
            Ok(Work::Beating { share, gone })
        }
        _ => Ok(Work::Over),
    }
}

// Whether the call failed.
fn has_failed(answer: Reply) -> bool
    ensures failed { result ≡ true → answer ≡ reply.Failed }
    ensures answered { result ≡ false → answer ≢ reply.Failed }
{
    match answer {
        Reply::Failed => true,
        _ => false,
    }
}
