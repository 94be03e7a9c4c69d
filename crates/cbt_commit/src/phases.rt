//! How far a commit has come, and how an answer takes it further.

ghost use Rattle.std.specs.Prelude.{◌≡◌, ◌+◌, ◌<◌, ◌^◌};
ghost use Rattle.cbt_commit.specs.Phases.{again, after_commit, after_drop, after_reading, after_unstage};

use cbt_model::{EntryState, Reply};

/// How a commit ended. The place in each, `commit` in `Unknown`, is that of its last commit call.
#[derive(Clone, Copy, Debug, PartialEq, Eq)]
pub enum FinishEnd {
    /// The attempt is committed. It is complete where all that it staged is published and its entry is
    /// dropped; else a call failed on the way.
    Committed { place: u64, complete: bool },
    /// The entry was not there.
    EntryLost { place: u64 },
    /// It was sent three times, and the entry is not committed.
    NotCommitted { place: u64 },
    /// Nobody knows what became of it: the entry could not be read, at `read`, or is gone.
    Unknown { commit: u64, read: u64 },
}

/// How far a commit has come.
#[derive(Clone, Copy, Debug, PartialEq, Eq)]
pub enum Phase {
    /// The commit is to be sent. It may be sent `left` times more after that.
    Sending { left: u8 },
    /// The commit at this place may or may not have taken effect: the entry is to be read.
    Reading { left: u8, commit: u64 },
    /// The attempt is committed. The own write at this place of their order is to be published; past the
    /// last one, the entry is to be dropped.
    Going { commit: u64, at: usize },
    Ended { end: FinishEnd },
}

// The commit was sent.
pub(crate) fn after_commit(left: u8, place: u64, reply: &Reply) -> Phase
    ensures { result ≡ after_commit left place reply.now }
{
    match reply {
        Reply::Done { .. } => Phase::Going {
            commit: place,
            at: 0,
        },
        Reply::NoEntry => Phase::Ended {
            end: FinishEnd::EntryLost { place },
        },
        // Of the answers that fit `Failed` and `Decided` are left.
        _ => Phase::Reading {
            left,
            commit: place,
        },
    }
}

// The entry was read, behind the commit at the place `commit`.
pub(crate) fn after_reading(left: u8, commit: u64, place: u64, reply: &Reply) -> Phase
    ensures { result ≡ after_reading left commit place reply.now }
{
    match reply {
        Reply::Entry(entry) => match entry.state {
            EntryState::Committed => Phase::Going { commit, at: 0 },
            EntryState::Pending | EntryState::Aborted => again(left, commit),
        },
        // Of the answers that fit `NoEntry` and `Failed` are left.
        _ => Phase::Ended {
            end: FinishEnd::Unknown {
                commit,
                read: place,
            },
        },
    }
}

// The commit took no effect: it is sent again, where it may be.
fn again(left: u8, commit: u64) -> Phase
    ensures { result ≡ again left commit }
{
    match left.checked_sub(1) {
        Some(left) => Phase::Sending { left },
        None => Phase::Ended {
            end: FinishEnd::NotCommitted { place: commit },
        },
    }
}

// The own write at this place was to be published. Where its document has another stamp, somebody else
// has published it.
pub(crate) fn after_unstage(commit: u64, at: usize, reply: &Reply) -> Phase
    requires { at + 1 < 2 ^ 64 }
    ensures { result ≡ after_unstage commit at reply.now }
{
    match reply {
        Reply::Done { .. } | Reply::CasMismatch { .. } => Phase::Going { commit, at: at + 1 },
        // Of the answers that fit only `Failed` is left.
        _ => Phase::Ended {
            end: FinishEnd::Committed {
                place: commit,
                complete: false,
            },
        },
    }
}

// The entry was to be dropped.
pub(crate) fn after_drop(commit: u64, reply: &Reply) -> Phase
    ensures { result ≡ after_drop commit reply.now }
{
    // Of the answers that fit only `Failed` leaves it there.
    let complete = matches!(reply, Reply::Done { .. } | Reply::NoEntry);
    Phase::Ended {
        end: FinishEnd::Committed {
            place: commit,
            complete,
        },
    }
}
