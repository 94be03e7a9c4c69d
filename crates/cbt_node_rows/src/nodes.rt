//! The typed node: calls with their fates and readings, and what it keeps of them.

ghost use Rattle.std.specs.Prelude.{◌≡◌, [], IsTrue, IfOk};
ghost use Rattle.cbt_model.specs.Fitting.{step_fits};

use crate::replies::in_words;
use crate::stager::{Stager, drive};
use crate::steps::step_of;
use crate::tables::no_such_step;
use crate::words::{actor, cut, number};
use anyhow::Result;
use cbt_base::{Clock, DocId, Duplicate, Id, List, ListClock, Map, NoMemory, StepClock};
use cbt_json::Json;
use cbt_model::{
    Actor, Expect, Fate, Fault, Faults, Kept, Node, OpKind, Stage, State, Step, step_fits,
};
use cbt_plain::Plain;
use std::alloc::Global;

/// Under what a node makes its calls.
#[derive(Drop)]
struct Terms {
    faults: Faults,
    line: Option<(u64, u64)>,
    readings: List<u64>,
}

/// What is answered to each part of a row, and then what the node kept, as its copy has it. A row has
/// the node's terms, parted by commas, as `line 1000 1, lost 1 2`, and then calls, each behind its
/// actor, and `ahead MS`.
pub fn calls(alloc: Global, row: &str) -> Result<String> {
    let (terms, parts) = row.split_once(" / ").unwrap_or((row, ""));
    let Terms {
        faults,
        line,
        readings,
    } = terms_of(alloc, terms)?;
    let clock = ListClock { readings, at: 0 };
    let mut node = empty_node(alloc, faults, line, clock)?;
    let mut told = String::new(alloc);
    for part in parts.split(" / ") {
        told.push_str(told_of(alloc, &mut node, part)?.as_str())?;
        told.push_str(" / ")?;
    }
    push_kept(&mut told, &node.finish().copy(alloc)?)?;
    Ok(told)
}

fn terms_of(alloc: Global, text: &str) -> Result<Terms> {
    let mut terms = Terms {
        faults: Faults::new(alloc),
        line: None,
        readings: List::new(alloc),
    };
    for term in text.split(", ") {
        add_term(&mut terms, term)?;
    }
    Ok(terms)
}

fn add_term(terms: &mut Terms, term: &str) -> Result<(), NoMemory> {
    let (word, rest) = cut(term);
    let (first, second) = cut(rest);
    let call = number(second).unwrap_or(0);
    match word {
        "line" => {
            terms.line = Some((number(first).unwrap_or(0), call));
            Ok(())
        }
        "lost" => terms.faults.add(fault(actor(first), call, Fate::Lost)),
        "late" => terms.faults.add(fault(actor(first), call, Fate::Late)),
        "reading" => terms.readings.push(number(first).unwrap_or(0)),
        _ => Ok(()),
    }
}

fn fault(actor: u32, call: u64, fate: Fate) -> Fault {
    Fault { actor, call, fate }
}

/// A node over a state without documents.
pub fn empty_node<C: Clock>(
    alloc: Global,
    faults: Faults,
    line: Option<(u64, u64)>,
    clock: C,
) -> Result<Plain<C>, NoMemory>
    ensures { IfOk result (λ node. ⟦<Plain<C> as Node>⟧.history node ≡ []) }
{
    let opening = State {
        last: 0,
        docs: Map::new(alloc),
        entries: Map::new(alloc),
        clients: Map::new(alloc),
    };
    Plain::new(alloc, opening, faults, line, clock)
}

// A call with its place and the clock behind it, or a move of the clock.
fn told_of<C: Clock>(alloc: Global, node: &mut Plain<C>, part: &str) -> Result<String> {
    let (word, rest) = cut(part);
    if word == "ahead" {
        node.advance(number(rest).unwrap_or(0))?;
        return Ok("moved".to_string(alloc)?);
    }
    match step_of(alloc, rest) {
        Some(step) if step_fits(&step) => called(alloc, node, actor(word), step),
        _ => no_such_step(alloc),
    }
}

fn called<C: Clock>(alloc: Global, node: &mut Plain<C>, actor: u32, step: Step) -> Result<String>
    requires { IsTrue (step_fits step) }
{
    let answer = node.call(actor, step)?;
    let (place, now) = (answer.place, answer.now);
    let reply = in_words(alloc, &answer.reply)?;
    Ok(format!(in alloc; "{place} at {now}: {reply}")?)
}

// Each event by its actor, its fate and its reading, and each mark.
fn push_kept(told: &mut String, kept: &Kept) -> Result<()> {
    told.push_str("kept")?;
    for event in kept.history.iter() {
        let (actor, reading) = (event.actor, event.reading);
        let fate = fate_word(event.fate);
        write!(told, " {actor} {fate} {reading},")?;
    }
    for mark in kept.marks.iter() {
        let (place, ms) = (mark.place, mark.ms);
        write!(told, " mark {place} {ms},")?;
    }
    let opening = kept.opening.entries.len();
    write!(told, " opened with {opening} entries")?;
    Ok(())
}

fn fate_word(fate: Fate) -> &'static str {
    match fate {
        Fate::Plain => "plain",
        Fate::Lost => "lost",
        Fate::Late => "late",
    }
}

// A staging of a new document, with the empty object as its content.
fn stage_new(alloc: Global, doc: DocId) -> Step {
    Step::Stage {
        doc,
        expect: Expect::New,
        stage: Stage {
            attempt: Id::attempt(1, 1, 1),
            atr: 12,
            kind: OpKind::Insert,
            content: Some(Json::empty_object(alloc)),
        },
    }
}

/// The number of documents and events behind so many stagings of new documents, under as many faults
/// of another actor. Each call looks for its fault and its actor's count, so the time of all of them
/// stays in proportion to their number.
pub fn many_calls(alloc: Global, count: &str) -> Result<String> {
    let count = number(count).unwrap_or(0);
    let mut faults = Faults::new(alloc);
    for call in 0..count {
        faults.add(fault(2, call.saturating_add(1), Fate::Lost))?;
    }
    let clock = StepClock { next: 0, step: 1 };
    let mut node = empty_node(alloc, faults, None, clock)?;
    for k in 0..count {
        let doc = DocId::new(alloc, format!(in alloc; "doc{k}")?.as_str())?;
        let step = stage_new(alloc, doc);
        if step_fits(&step) {
            node.call(1, step)?;
        }
    }
    let documents = node.state().docs.len();
    let events = node.finish().history.len();
    Ok(format!(in alloc; "{documents} documents, {events} events")?)
}

/// An actor reads the document that another made, and stages its removal.
pub fn reads_and_stages(alloc: Global) -> Result<String> {
    let clock = StepClock { next: 0, step: 0 };
    let mut node = empty_node(alloc, Faults::new(alloc), Some((1000, 1)), clock)?;
    let create = stage_new(alloc, DocId::new(alloc, "a")?);
    if !step_fits(&create) {
        return no_such_step(alloc);
    }
    node.call(2, create)?;
    let mut stager = Stager {
        doc: DocId::new(alloc, "a")?,
        stage: Stage {
            attempt: Id::attempt(1, 1, 2),
            atr: 12,
            kind: OpKind::Remove,
            content: None,
        },
        seen: None,
        made: 0,
        stopped: false,
    };
    drive(alloc, &mut node, 1, &mut stager)?;
    let calls = stager.calls();
    let mut told = format!(in alloc; "{calls} calls, ")?;
    push_kept(&mut told, &node.finish())?;
    Ok(told)
}
