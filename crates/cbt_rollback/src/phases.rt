//! How far a rollback has come, and how an answer takes it further.

ghost use Rattle.std.specs.Prelude.{◌≡◌, ◌+◌, ◌<◌, ◌^◌};
ghost use Rattle.cbt_rollback.specs.Phases.{after_abort, after_drop, after_reading, after_unstick, failed};

use cbt_base::Id;
use cbt_model::Reply;

/// How a rollback ended.
#[derive(Clone, Copy, Debug, PartialEq, Eq)]
pub enum UndoEnd {
    /// Nothing of the attempt is left.
    RolledBack,
    /// The call at this place failed.
    Incomplete { place: u64 },
}

/// How far a rollback has come.
#[derive(Clone, Copy, Debug, PartialEq, Eq)]
pub enum Phase {
    /// The entry is to be aborted.
    Aborting,
    /// The own write at this place of their order is to be taken off; past the last one, the entry is
    /// to be dropped.
    Going { at: usize },
    /// The document of the own write at this place was read staged by the attempt, with this stamp.
    Taking { at: usize, cas: u64 },
    Ended { end: UndoEnd },
}

// The entry was to be aborted.
pub(crate) fn after_abort(place: u64, reply: &Reply) -> Phase
    ensures { result ≡ after_abort place reply.now }
{
    match reply {
        Reply::NoEntry => Phase::Ended {
            end: UndoEnd::RolledBack,
        },
        Reply::Done { .. } | Reply::Decided => Phase::Going { at: 0 },
        // Of the answers that fit only `Failed` is left.
        _ => failed(place),
    }
}

// The own write at this place was to be taken off. Where its document has another stamp, somebody else
// has taken it off.
pub(crate) fn after_unstick(at: usize, place: u64, reply: &Reply) -> Phase
    requires { at + 1 < 2 ^ 64 }
    ensures { result ≡ after_unstick at place reply.now }
{
    match reply {
        Reply::Done { .. } | Reply::CasMismatch { .. } => Phase::Going { at: at + 1 },
        // Of the answers that fit only `Failed` is left.
        _ => failed(place),
    }
}

// The document of the own write at this place was read. It is to be taken off only where the attempt
// whose entry is in this record staged it.
pub(crate) fn after_reading(atr: u16, attempt: Id, at: usize, place: u64, reply: &Reply) -> Phase
    requires { at + 1 < 2 ^ 64 }
    ensures { result ≡ after_reading atr attempt at place reply.now }
{
    match reply {
        Reply::Absent => Phase::Going { at: at + 1 },
        Reply::Doc { cas, stage, .. } => match stage {
            Some(stage) if stage.atr == atr && stage.attempt == attempt => {
                Phase::Taking { at, cas: *cas }
            }
            _ => Phase::Going { at: at + 1 },
        },
        // Of the answers that fit only `Failed` is left.
        _ => failed(place),
    }
}

// The entry was to be dropped.
pub(crate) fn after_drop(place: u64, reply: &Reply) -> Phase
    ensures { result ≡ after_drop place reply.now }
{
    match reply {
        Reply::Done { .. } | Reply::NoEntry => Phase::Ended {
            end: UndoEnd::RolledBack,
        },
        // Of the answers that fit only `Failed` is left.
        _ => failed(place),
    }
}

// The call at this place failed.
fn failed(place: u64) -> Phase
    ensures { result ≡ failed place }
{
    Phase::Ended {
        end: UndoEnd::Incomplete { place },
    }
}
