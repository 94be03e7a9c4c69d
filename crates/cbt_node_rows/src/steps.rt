//! Steps, as `stage a 1 1/1 {"n":2}`.

use crate::words::{attempt, cleaner, cut, document, json, number, record};
use cbt_base::{DocId, Id, List};
use cbt_model::{Expect, Lists, OpKind, Stage, Step};
use std::alloc::Global;

/// The step that a text names; none where it names none.
pub fn step_of(alloc: Global, text: &str) -> Option<Step> {
    let (word, rest) = cut(text);
    match word {
        "read" | "stage" | "publish" | "delete" | "unstick" => on_document(alloc, word, rest),
        "clients" => Some(Step::ReadClients),
        "record" => Some(Step::ReadAtr { atr: record(rest)? }),
        "beat" => beat(alloc, rest),
        _ => on_entry(alloc, word, rest),
    }
}

fn on_document(alloc: Global, word: &str, text: &str) -> Option<Step> {
    let (id, rest) = cut(text);
    let doc = document(alloc, id)?;
    if word == "read" {
        return Some(Step::ReadDoc { doc });
    }
    let (stamp, rest) = cut(rest);
    match word {
        "stage" => stage(alloc, doc, stamp, rest),
        "publish" => publish(alloc, doc, stamp, rest),
        "delete" => delete(doc, stamp),
        _ => unstick(doc, stamp),
    }
}

// A staging over `new` or a stamp, by an attempt: of a content, or `none` for a remove.
fn stage(alloc: Global, doc: DocId, stamp: &str, text: &str) -> Option<Step> {
    let expect = match number(stamp) {
        Some(cas) => Expect::Cas(cas),
        None => Expect::New,
    };
    let (by, content) = cut(text);
    let attempt = attempt(by)?;
    let stage = if content == "none" {
        Stage {
            attempt,
            atr: 12,
            kind: OpKind::Remove,
            content: None,
        }
    } else {
        Stage {
            attempt,
            atr: 12,
            kind: OpKind::Replace,
            content: Some(json(alloc, content)?),
        }
    };
    Some(Step::Stage { doc, expect, stage })
}

fn publish(alloc: Global, doc: DocId, stamp: &str, content: &str) -> Option<Step> {
    let cas = number(stamp)?;
    let body = json(alloc, content)?;
    Some(Step::Publish { doc, cas, body })
}

fn delete(doc: DocId, stamp: &str) -> Option<Step> {
    let cas = number(stamp)?;
    Some(Step::Delete { doc, cas })
}

fn unstick(doc: DocId, stamp: &str) -> Option<Step> {
    let cas = number(stamp)?;
    Some(Step::Unstick { doc, cas })
}

// A step on an entry, by its record and its attempt.
fn on_entry(alloc: Global, word: &str, text: &str) -> Option<Step> {
    let (place, rest) = cut(text);
    let atr = record(place)?;
    let (by, rest) = cut(rest);
    let attempt = attempt(by)?;
    match word {
        "entry" => Some(Step::ReadEntry { atr, attempt }),
        "add" => add(atr, attempt, rest),
        "commit" => Some(Step::Commit {
            atr,
            attempt,
            lists: no_lists(alloc),
        }),
        "abort" => Some(Step::Abort {
            atr,
            attempt,
            lists: no_lists(alloc),
        }),
        "drop" => Some(Step::DropEntry {
            atr,
            attempt,
            guarded: rest == "guarded",
        }),
        _ => None,
    }
}

fn add(atr: u16, attempt: Id, exp: &str) -> Option<Step> {
    let exp = number(exp)?;
    Some(Step::AddEntry { atr, attempt, exp })
}

fn no_lists(alloc: Global) -> Lists {
    Lists {
        ins: List::new(alloc),
        rep: List::new(alloc),
        rem: List::new(alloc),
    }
}

// A beat of a cleaner, that names others as gone.
fn beat(alloc: Global, text: &str) -> Option<Step> {
    let (me, rest) = cut(text);
    let me = cleaner(me)?;
    let mut gone = List::new(alloc);
    for word in rest.split(' ') {
        if let Some(other) = cleaner(word) {
            gone.push(other).ok()?;
        }
    }
    Some(Step::Beat {
        me,
        expires: 9,
        num_atrs: 16,
        gone,
    })
}
