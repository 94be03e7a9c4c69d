//! How far a pass has come, and how an answer takes it further.

ghost use Rattle.std.specs.Prelude.{◌≡◌, ◌≢◌, ◌+◌, ◌<◌, ◌^◌, [], Some, length, slice_get, IsTrue, IsSome, IfOk, OnErr};
ghost use Rattle.cbt_model.specs.Fitting.{fits, fits_read_doc};
ghost use Rattle.cbt_model.specs.declared.steps.Step.{Step};
ghost use Rattle.cbt_book.specs.Passes.{covered_by};
ghost use Rattle.cbt_clean.specs.Phases.{after, after_asking, after_clearing, after_drop, after_eviction, after_reading, after_record, after_taking, docs_of, failed, go_on, left_in, next, step_for, treat};

use crate::covers::Cover;
use crate::staged::Staged;
use crate::waiting::{Waiting, attempts_of, expired_of};
use cbt_base::{Id, List, NoMemory};
use cbt_book::PassEnd;
use cbt_model::{Answer, EntryState, Reply};
use std::alloc::Global;

/// How far a pass has come.
#[derive(Drop)]
pub enum Phase {
    /// The record is to be read.
    Begun,
    /// The attempt is decided: the document at this place of its entry's lists is to be read; past the
    /// last one, the entry is to be dropped.
    Clearing {
        cover: Cover,
        at: usize,
    },
    /// That document was read staged by the attempt.
    Taking {
        cover: Cover,
        at: usize,
        staged: Staged,
    },
    /// The attempt is pending: its entry is to be dropped, but only as a pending one. `again` says that
    /// such a drop was refused before.
    Evicting {
        cover: Cover,
        again: bool,
    },
    /// Such a drop was refused, since the entry is not pending any more: it is to be read.
    Asking {
        cover: Cover,
    },
    Ended {
        end: PassEnd,
    },
}

impl Phase {
    // The phase after this one, once the call that it asks for was answered. Only the list of the attempts
    // that the pass covers takes memory.
    pub(crate) fn after(self, alloc: Global, atr: u16, answer: Answer) -> Result<Phase, NoMemory>
        requires asked { IsSome (step_for atr self) }
        requires fits { (s : Step) → step_for atr self ≡ Some s → IsTrue (fits s answer.reply) }
        ensures ok { IfOk result (λ phase. phase ≡ after atr self answer.place answer.now answer.reply) }
        ensures fewer { IfOk result (λ phase. left_in phase < left_in self) }
        ensures first { OnErr result (self ≡ Phase.Begun) }
        ensures refused { OnErr result (covered_by answer.reply answer.now ≢ []) }
    {
        let Answer { place, now, reply } = answer;
        match self {
            Phase::Begun => after_record(alloc, place, now, reply),
            Phase::Clearing { cover, at } => Ok(after_clearing(atr, cover, at, place, reply)),
            Phase::Taking {
                cover,
                at,
                staged: _staged,
            } => Ok(after_taking(cover, at, place, &reply)),
            Phase::Evicting { cover, again } => Ok(after_eviction(cover, again, place, &reply)),
            Phase::Asking { cover } => Ok(after_asking(cover, place, reply)),
            Phase::Ended { end } => Ok(Phase::Ended { end }),
        }
    }
}

impl Cover {
    // The attempt is treated by the state of its entry. `again` says that the entry was read for itself.
    fn treat(self, again: bool) -> Phase
        ensures { result ≡ treat self again }
    {
        match self.entry.state {
            EntryState::Pending => Phase::Evicting { cover: self, again },
            EntryState::Committed | EntryState::Aborted => Phase::Clearing { cover: self, at: 0 },
        }
    }

    // The attempt is finished.
    fn next(self) -> Phase
        ensures { result ≡ next self }
    {
        let Cover {
            covered,
            attempt: _attempt,
            entry: _entry,
            waiting,
        } = self;
        go_on(covered, waiting)
    }
}

// The next of the attempts that wait is treated; past the last one the pass has ended.
fn go_on(covered: List<Id>, mut waiting: Waiting) -> Phase
    ensures { result ≡ go_on covered waiting }
{
    match waiting.pop() {
        Some((attempt, entry)) => Cover {
            covered,
            attempt,
            entry,
            waiting,
        }
        .treat(false),
        None => Phase::Ended {
            end: PassEnd::Ok { covered },
        },
    }
}

// The record was read.
fn after_record(alloc: Global, place: u64, now: u64, reply: Reply) -> Result<Phase, NoMemory>
    ensures ok { IfOk result (λ phase. phase ≡ after_record place now reply) }
    ensures few { IfOk result (λ _. length (covered_by reply now) < 2 ^ 64) }
    ensures refused { OnErr result (covered_by reply now ≢ []) }
{
    match reply {
        Reply::Entries(entries) => {
            let expired = expired_of(entries, now);
            let covered = attempts_of(alloc, &expired)?;
            // The attempts are in memory, so their count is a number.
            let _count = covered.len();
            Ok(go_on(covered, Waiting::new(expired)))
        }
        // Of the answers that fit only `Failed` is left.
        _ => Ok(failed(place)),
    }
}

// The attempt is decided: a listed document was read, or past the last one the entry was to be dropped.
fn after_clearing(atr: u16, cover: Cover, at: usize, place: u64, reply: Reply) -> Phase
    requires fits { IsSome (slice_get (docs_of cover.entry.lists) at) → IsTrue (fits_read_doc reply) }
    ensures phase { result ≡ after_clearing atr cover at (slice_get (docs_of cover.entry.lists) at) place reply }
    ensures few { length (docs_of cover.entry.lists) < 2 ^ 64 }
{
    // The documents are in memory, so the place after one of them is a number.
    let _documents = cover.documents();
    match cover.document(at) {
        Some(_) => after_reading(atr, cover, at, place, reply),
        None => after_drop(cover, place, &reply),
    }
}

// A listed document was read. Only what this attempt staged, whose entry is in this record, is to be taken off.
fn after_reading(atr: u16, cover: Cover, at: usize, place: u64, reply: Reply) -> Phase
    requires fits { IsTrue (fits_read_doc reply) }
    requires there { at + 1 < 2 ^ 64 }
    ensures { result ≡ after_reading atr cover at place reply }
{
    match reply {
        Reply::Absent => Phase::Clearing { cover, at: at + 1 },
        Reply::Doc {
            cas,
            body: _body,
            stage,
        } => match stage {
            Some(stage) if stage.atr == atr && stage.attempt == cover.attempt => Phase::Taking {
                cover,
                at,
                staged: Staged {
                    cas,
                    content: stage.content,
                },
            },
            _ => Phase::Clearing { cover, at: at + 1 },
        },
        // Of the answers that fit only `Failed` is left.
        _ => failed(place),
    }
}

// The entry was to be dropped. Where it is not there, somebody else has dropped it.
fn after_drop(cover: Cover, place: u64, reply: &Reply) -> Phase
    ensures { result ≡ after_drop cover place reply.now }
{
    match reply {
        Reply::Done { .. } | Reply::NoEntry => cover.next(),
        // Of the answers that fit only `Failed` is left.
        _ => failed(place),
    }
}

// A staging was to be taken off. Where its document has another stamp, somebody else has taken it off.
fn after_taking(cover: Cover, at: usize, place: u64, reply: &Reply) -> Phase
    requires { IsSome (slice_get (docs_of cover.entry.lists) at) }
    ensures phase { result ≡ after_taking cover at place reply.now }
    ensures few { length (docs_of cover.entry.lists) < 2 ^ 64 }
{
    // The documents are in memory, so the place after one of them is a number.
    let _documents = cover.documents();
    match reply {
        Reply::Done { .. } | Reply::CasMismatch { .. } => Phase::Clearing { cover, at: at + 1 },
        // Of the answers that fit only `Failed` is left.
        _ => failed(place),
    }
}

// The pending entry was to be dropped.
fn after_eviction(cover: Cover, again: bool, place: u64, reply: &Reply) -> Phase
    ensures { result ≡ after_eviction cover again place reply.now }
{
    match reply {
        Reply::Done { .. } | Reply::NoEntry => cover.next(),
        // Decided, and pending when it was read: that never comes, and the entry is left.
        Reply::Decided if again => cover.next(),
        Reply::Decided => Phase::Asking { cover },
        // Of the answers that fit only `Failed` is left.
        _ => failed(place),
    }
}

// The entry was read for itself.
fn after_asking(cover: Cover, place: u64, reply: Reply) -> Phase
    ensures { result ≡ after_asking cover place reply }
{
    match reply {
        Reply::NoEntry => cover.next(),
        Reply::Entry(entry) => Cover {
            covered: cover.covered,
            attempt: cover.attempt,
            entry,
            waiting: cover.waiting,
        }
        .treat(true),
        // Of the answers that fit only `Failed` is left.
        _ => failed(place),
    }
}

// The call at this place failed.
fn failed(place: u64) -> Phase
    ensures { result ≡ failed place }
{
    Phase::Ended {
        end: PassEnd::CallFailed { place },
    }
}
