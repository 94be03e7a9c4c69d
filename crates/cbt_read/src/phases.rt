//! How far a read has come, and how an answer takes it further.

ghost use Rattle.std.specs.Prelude.{◌≡◌};
ghost use Rattle.cbt_read.specs.Phases.{after, after_entry, after_reading, after_second, ask, committed, dead, failed, found, one_fewer, uncommitted};

use crate::ends::GetEnd;
use cbt_book::Seen;
use cbt_json::Json;
use cbt_model::{Answer, EntryState, Reply, Stage};

// After so many changes of hands a read goes on; the next one ends it.
const MOST_CHANGES: u8 = 7;

/// A reading that showed the document staged.
#[derive(Drop)]
pub struct Staged {
    pub cas: u64,
    pub body: Option<Json>,
    pub stage: Stage,
    /// The place of the reading.
    pub place: u64,
}

/// How far a read has come.
#[derive(Drop)]
pub enum Phase {
    /// It has made no call.
    Begun,
    /// A reading showed the document staged: the entry of that attempt is to be read. After so many
    /// further changes of hands as are `left` it goes on.
    Asking {
        staged: Staged,
        left: u8,
    },
    /// The entry, read at this place, is committed or, where it is gone, not there: the document is to
    /// be read again, since the entry decides only a document that has not changed.
    Again {
        staged: Staged,
        gone: bool,
        place: u64,
        left: u8,
    },
    Ended {
        end: GetEnd,
    },
}

impl Phase {
    // The phase after this one, once the call that it asks for was answered.
    pub(crate) fn after(self, answer: Answer) -> Phase
        ensures { result ≡ after self answer.place answer.reply }
    {
        let Answer {
            place,
            now: _now,
            reply,
        } = answer;
        match self {
            Phase::Begun => after_reading(place, reply, Some(MOST_CHANGES)),
            Phase::Asking { staged, left } => after_entry(staged, left, place, reply),
            Phase::Again {
                staged,
                gone,
                place: asked,
                left,
            } => { after_second(staged, gone, asked, left, place, reply) }
            Phase::Ended { end } => Phase::Ended { end },
        }
    }
}

impl Staged {
    // The entry is not committed: the body counts.
    fn uncommitted(self) -> Seen
        ensures { result ≡ uncommitted self }
    {
        let Staged {
            cas,
            body,
            stage,
            place,
        } = self;
        Seen {
            value: body,
            cas: Some(cas),
            by: Some((stage.atr, stage.attempt)),
            gone: false,
            moment: place,
        }
    }

    // The entry was committed when it was read: the content counts since then.
    fn committed(self, moment: u64) -> Seen
        ensures { result ≡ committed self moment }
    {
        let Staged {
            cas,
            body: _body,
            stage,
            place: _place,
        } = self;
        let Stage {
            attempt,
            atr,
            kind: _kind,
            content,
        } = stage;
        Seen {
            value: content,
            cas: Some(cas),
            by: Some((atr, attempt)),
            gone: false,
            moment,
        }
    }

    // The entry is not there, and never comes back: the body counts that the document still had
    // at this moment.
    fn dead(self, body: Option<Json>, moment: u64) -> Seen
        ensures { result ≡ dead self body moment }
    {
        let Staged {
            cas,
            body: _body,
            stage,
            place: _place,
        } = self;
        Seen {
            value: body,
            cas: Some(cas),
            by: Some((stage.atr, stage.attempt)),
            gone: true,
            moment,
        }
    }
}

// A reading that stands for itself: the first one, or one of a document that has changed. With no
// further change left a staged document ends the read.
fn after_reading(place: u64, reply: Reply, left: Option<u8>) -> Phase
    ensures { result ≡ after_reading place reply left }
{
    match reply {
        Reply::Doc { cas, body, stage } => match stage {
            None => found(body, Some(cas), place),
            Some(stage) => ask(
                Staged {
                    cas,
                    body,
                    stage,
                    place,
                },
                left,
            ),
        },
        Reply::Absent => found(None, None, place),
        // Of the answers that fit only `Failed` is left.
        _ => failed(place),
    }
}

// The document is staged: by its entry, unless it has changed hands too often.
fn ask(staged: Staged, left: Option<u8>) -> Phase
    ensures { result ≡ ask staged left }
{
    match left {
        Some(left) => Phase::Asking { staged, left },
        None => Phase::Ended {
            end: GetEnd::Contended,
        },
    }
}

// The entry of the attempt that staged the document.
fn after_entry(staged: Staged, left: u8, place: u64, reply: Reply) -> Phase
    ensures { result ≡ after_entry staged left place reply }
{
    let gone = match reply {
        Reply::NoEntry => true,
        Reply::Entry(entry) => match entry.state {
            EntryState::Committed => false,
            EntryState::Pending | EntryState::Aborted => return value(staged.uncommitted()),
        },
        // Of the answers that fit only `Failed` is left.
        _ => return failed(place),
    };
    Phase::Again {
        staged,
        gone,
        place,
        left,
    }
}

// The reading behind that of the entry. At the same stamp the entry decides; else the document has
// changed, and its new state stands for itself.
fn after_second(staged: Staged, gone: bool, asked: u64, left: u8, place: u64, reply: Reply) -> Phase
    ensures { result ≡ after_second staged gone asked left place reply }
{
    match reply {
        Reply::Doc {
            cas,
            body,
            stage: _stage,
        } if cas == staged.cas => {
            if gone {
                value(staged.dead(body, place))
            } else {
                value(staged.committed(asked))
            }
        }
        reply => after_reading(place, reply, one_fewer(left)),
    }
}

// A change of hands less, where one is left.
fn one_fewer(left: u8) -> Option<u8>
    ensures { result ≡ one_fewer left }
{
    left.checked_sub(1)
}

// The read has ended with this.
fn value(seen: Seen) -> Phase
    ensures { result ≡ Phase.Ended (GetEnd.Value seen) }
{
    Phase::Ended {
        end: GetEnd::Value { seen },
    }
}

// A reading without a staging.
fn found(body: Option<Json>, cas: Option<u64>, place: u64) -> Phase
    ensures { result ≡ found body cas place }
{
    value(Seen {
        value: body,
        cas,
        by: None,
        gone: false,
        moment: place,
    })
}

// The call at this place failed.
fn failed(place: u64) -> Phase
    ensures { result ≡ failed place }
{
    Phase::Ended {
        end: GetEnd::CallFailed { place },
    }
}
