//! Books written out.

use anyhow::Result;
use cbt_base::{DocId, Id, List, Map, NoMemory};
use cbt_book::{
    AttemptEnd, AttemptLog, Book, CleanerLog, ClientLog, OpAnswer, OpLog, PassEnd, PassLog,
    RoundLog, Share, Span, TxnEnd, TxnLog, When, Why,
};
use cbt_json::Json;
use cbt_model::{
    DocState, Entry, EntryState, Event, Fate, Kept, Lists, OpKind, Stage, State, Step,
};
use std::alloc::Global;

/// The record of every attempt.
const RECORD: u16 = 7;

/// A run without documents, clients and calls.
pub fn nothing_happened(alloc: Global) -> Book {
    book_of(
        alloc,
        empty_state(alloc),
        List::new(alloc),
        List::new(alloc),
    )
}

/// One attempt has a pending entry and loses its first commit, and another has no entry. Of the
/// client's transactions each ends in another way, in the order of the list of outcomes. There are a
/// cleaner and a sweep.
pub fn each_outcome(alloc: Global) -> Result<Book> {
    let here = Id::attempt(1, 1, 1);
    let gone = Id::attempt(1, 1, 2);
    let mut opening = empty_state(alloc);
    opening.last = 5;
    opening.entries.insert((RECORD, here), pending(alloc))?;
    add_staged(alloc, &mut opening, "a", here, None)?;
    let body = Json::read(alloc, b"{\"n\":1}")?;
    add_staged(alloc, &mut opening, "b", gone, Some(body))?;
    add_staged(alloc, &mut opening, "c", gone, None)?;
    let history = commits(alloc, here, gone)?;
    let mut clients = List::new(alloc);
    let txns = one_of_each_end(alloc)?;
    clients.push(ClientLog { txns, calls: 3 })?;
    let mut book = book_of(alloc, opening, history, clients);
    book.cleaners.push(stopped_cleaner(alloc, here)?)?;
    book.cleaners.push(sweep(alloc, here, gone)?)?;
    Ok(book)
}

// Three rounds: one that did not come to a share, one of two passes, of which the second failed, and
// one that was stopped before it came to a share.
fn stopped_cleaner(alloc: Global, attempt: Id) -> Result<CleanerLog, NoMemory> {
    let mut covered = List::new(alloc);
    covered.push(attempt)?;
    let mut passes = List::new(alloc);
    passes.push(pass(1, PassEnd::Ok { covered }))?;
    passes.push(pass(3, PassEnd::CallFailed { place: 5 }))?;
    let mut rounds = List::new(alloc);
    rounds.push(round(None, List::new(alloc)))?;
    rounds.push(round(Some(Share { index: 1, of: 2 }), passes))?;
    rounds.push(round(None, List::new(alloc)))?;
    Ok(CleanerLog {
        id: Id::cleaner(1),
        rounds,
        stopped: true,
        calls: 4,
    })
}

// One round, whose one pass covered two attempts.
fn sweep(alloc: Global, one: Id, other: Id) -> Result<CleanerLog, NoMemory> {
    let mut covered = List::new(alloc);
    covered.push(one)?;
    covered.push(other)?;
    let mut passes = List::new(alloc);
    passes.push(pass(RECORD, PassEnd::Ok { covered }))?;
    let mut rounds = List::new(alloc);
    rounds.push(round(Some(Share { index: 0, of: 1 }), passes))?;
    Ok(CleanerLog {
        id: Id::cleaner(2),
        rounds,
        stopped: false,
        calls: 2,
    })
}

fn pass(atr: u16, end: PassEnd) -> PassLog {
    PassLog {
        atr,
        span: Span { from: 0, to: 1 },
        end,
    }
}

fn round(share: Option<Share>, passes: List<PassLog>) -> RoundLog {
    RoundLog {
        span: Span { from: 0, to: 1 },
        share,
        passes,
    }
}

// An attempt that was stopped behind its one staging.
fn stopped_attempt(alloc: Global) -> Result<AttemptLog, NoMemory> {
    let span = Span { from: 0, to: 3 };
    let answer = OpAnswer::Staged {
        place: 2,
        base: When::At(0),
    };
    let mut ops = List::new(alloc);
    ops.push(OpLog {
        op: 1,
        span,
        answer,
    })?;
    Ok(AttemptLog {
        id: Id::attempt(1, 1, 1),
        span,
        ops,
        not_committed: false,
        end: AttemptEnd::Stopped,
    })
}

fn empty_state(alloc: Global) -> State {
    State {
        last: 0,
        docs: Map::new(alloc),
        entries: Map::new(alloc),
        clients: Map::new(alloc),
    }
}

/// A book without cleaners and marks.
pub fn book_of(
    alloc: Global,
    opening: State,
    history: List<Event>,
    clients: List<ClientLog>,
) -> Book {
    Book {
        kept: Kept {
            opening,
            history,
            marks: List::new(alloc),
        },
        clients,
        cleaners: List::new(alloc),
    }
}

fn empty_lists(alloc: Global) -> Lists {
    Lists {
        ins: List::new(alloc),
        rep: List::new(alloc),
        rem: List::new(alloc),
    }
}

fn pending(alloc: Global) -> Entry {
    Entry {
        state: EntryState::Pending,
        start: 1,
        exp: 15000,
        lists: empty_lists(alloc),
    }
}

// Adds a document with this body, to which an attempt wants to give the content {"n":2}.
fn add_staged(
    alloc: Global,
    state: &mut State,
    id: &str,
    attempt: Id,
    body: Option<Json>,
) -> Result<()> {
    let stage = Stage {
        attempt,
        atr: RECORD,
        kind: OpKind::Insert,
        content: Some(Json::read(alloc, b"{\"n\":2}")?),
    };
    let doc = DocState {
        cas: 1,
        body,
        attrs: Json::empty_object(alloc),
        stage: Some(stage),
    };
    state.docs.insert(DocId::new(alloc, id)?, doc)?;
    Ok(())
}

// A commit that is lost, the same once more, and one of an attempt without an entry.
fn commits(alloc: Global, here: Id, gone: Id) -> Result<List<Event>, NoMemory> {
    let mut history = List::new(alloc);
    for (attempt, fate) in [(here, Fate::Lost), (here, Fate::Plain), (gone, Fate::Plain)] {
        let step = Step::Commit {
            atr: RECORD,
            attempt,
            lists: empty_lists(alloc),
        };
        history.push(Event {
            actor: 1,
            step,
            fate,
            reading: 1000,
        })?;
    }
    Ok(history)
}

// A transaction of each end, in the order of the list of outcomes.
fn one_of_each_end(alloc: Global) -> Result<List<TxnLog>, NoMemory> {
    let mut txns = List::new(alloc);
    for end in [
        TxnEnd::Committed { complete: true },
        TxnEnd::Committed { complete: false },
        TxnEnd::Empty,
        TxnEnd::RolledBack,
        TxnEnd::Failed(Why::NotFound),
        TxnEnd::Failed(Why::Exists),
        TxnEnd::Failed(Why::NeedFalse),
        TxnEnd::Failed(Why::BadValue),
        TxnEnd::Expired { now: 9 },
        TxnEnd::TriesSpent,
        TxnEnd::Unknown,
        TxnEnd::CallFailed { place: 4 },
        TxnEnd::Stopped,
    ] {
        let mut attempts = List::new(alloc);
        attempts.push(stopped_attempt(alloc)?)?;
        txns.push(TxnLog { attempts, end })?;
    }
    Ok(txns)
}
