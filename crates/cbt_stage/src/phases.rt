//! How far a put has come, and how an answer takes it further.

ghost use Rattle.std.specs.Prelude.{◌≡◌};
ghost use Rattle.cbt_stage.specs.Phases.{after, after_adding, after_entry, after_staging, again, entering, failed, start};

use crate::ends::PutEnd;
use crate::tasks::Task;
use cbt_base::Id;
use cbt_book::When;
use cbt_model::Reply;

// So many times the entry of another attempt may be shown, and the put asks again; the next one ends it.
const MOST_WAITS: u8 = 3;

/// How far a put has come.
#[derive(Clone, Copy, Debug, PartialEq, Eq)]
pub enum Phase {
    /// The entry of the attempt whose write waits in the document is to be read. Where it is there,
    /// it is read again so many times as are `left`.
    Asking { atr: u16, by: Id, left: u8 },
    /// The attempt's own entry is to be added.
    Adding,
    /// The write is to be staged.
    Staging,
    Ended { end: PutEnd },
}

impl Phase {
    // The first phase of a put.
    pub(crate) fn start(task: &Task) -> Phase
        ensures { result ≡ start task.now }
    {
        match task.seen.by {
            Some((atr, by)) if !task.seen.gone => Phase::Asking {
                atr,
                by,
                left: MOST_WAITS,
            },
            _ => entering(task),
        }
    }

    // The phase after this one, once the call that it asks for had this reply at this place.
    pub(crate) fn after(&self, task: &Task, place: u64, reply: &Reply) -> Phase
        ensures { result ≡ after task.now self.now place reply.now }
    {
        match self {
            Phase::Asking { atr, by, left } => after_entry(task, *atr, *by, *left, place, reply),
            Phase::Adding => after_adding(place, reply),
            Phase::Staging => after_staging(task, place, reply),
            Phase::Ended { end } => Phase::Ended { end: *end },
        }
    }
}

// Nobody is in the way: the attempt's entry is added where it was not sent, and else the write is staged.
fn entering(task: &Task) -> Phase
    ensures { result ≡ entering task.now }
{
    if task.sent {
        Phase::Staging
    } else {
        Phase::Adding
    }
}

// The entry of the attempt whose write waits in the document.
fn after_entry(task: &Task, atr: u16, by: Id, left: u8, place: u64, reply: &Reply) -> Phase
    ensures { result ≡ after_entry task.now atr by left place reply.now }
{
    match reply {
        Reply::NoEntry => entering(task),
        Reply::Entry(_) => again(atr, by, left),
        // Of the answers that fit only `Failed` is left.
        _ => failed(place),
    }
}

// The entry was there: it is read again, unless it was shown too often.
fn again(atr: u16, by: Id, left: u8) -> Phase
    ensures { result ≡ again atr by left }
{
    match left.checked_sub(1) {
        Some(left) => Phase::Asking { atr, by, left },
        None => Phase::Ended {
            end: PutEnd::Blocked { by },
        },
    }
}

// The attempt's own entry is there, also where it was there before.
fn after_adding(place: u64, reply: &Reply) -> Phase
    ensures { result ≡ after_adding place reply.now }
{
    match reply {
        Reply::Done { .. } | Reply::Exists => Phase::Staging,
        // Of the answers that fit only `Failed` is left.
        _ => failed(place),
    }
}

// The write is staged, or the document has another stamp than the one that was read.
fn after_staging(task: &Task, place: u64, reply: &Reply) -> Phase
    ensures { result ≡ after_staging task.now place reply.now }
{
    match reply {
        Reply::Done { .. } => Phase::Ended {
            end: PutEnd::Staged {
                place,
                base: When::At(task.seen.moment),
            },
        },
        Reply::Failed => failed(place),
        // Of the answers that fit only refusals are left.
        _ => Phase::Ended { end: PutEnd::Moved },
    }
}

// The call at this place failed.
fn failed(place: u64) -> Phase
    ensures { result ≡ failed place }
{
    Phase::Ended {
        end: PutEnd::CallFailed { place },
    }
}
