//! Actors over the typed node, driven in a stated order.

ghost use Rattle.std.specs.Prelude.{◌≡◌, ℕ, ◌+◌, ◌^◌, ◌<◌, ◌≤◌, Some, [], ◌∷◌, length, slice_get, IfOk, OnOk};
ghost use Rattle.cbt_sched.specs.Turns.{marks_of, turns};
ghost use Rattle.cbt_node_rows.specs.Written.{actors, counts, order};
ghost use Rattle.cbt_node_rows.specs.Fresh.{AreFresh, IsFresh};

use crate::nodes::empty_node;
use crate::refusing::Refusing;
use crate::words::{actor as actor_number, cut, number};
use crate::workers::{Reader, Watcher, Worker};
use anyhow::Result;
use cbt_base::{List, NoMemory, StepClock};
use cbt_model::{Faults, Item, Kept, Node};
use cbt_sched::drive_in_order;
use std::alloc::Global;

/// How to drive actors.
#[derive(Drop)]
struct Drive {
    stops: List<(u32, u64)>,
    order: List<Item>,
    /// The call behind so many finds no memory.
    before: u64,
    /// Whether marks find memory.
    marks: bool,
}

/// Who called, the marks, and who was stopped. In front of the bar stand actors that read a record
/// (`r3`) or the client record (`w3`) so many times, and behind it how they are driven, parted by
/// commas: `order`, `stop ACTOR CALLS`, `before CALLS`, `unmarked`. A word behind which `x5` stands
/// counts five times.
pub fn driven(alloc: Global, row: &str) -> Result<String> {
    let (actors, terms) = row.split_once(" | ").unwrap_or((row, ""));
    let drive = drive_of(alloc, terms)?;
    let mut workers = workers_of(alloc, actors)?;
    if workers.len() >= 1 << 31 {
        return Ok("too many actors".to_string(alloc)?);
    }
    let (refused, kept) = run(alloc, &mut workers, drive)?;
    told(alloc, refused, &kept, &workers)
}

fn drive_of(alloc: Global, terms: &str) -> Result<Drive> {
    let mut drive = Drive {
        stops: List::new(alloc),
        order: List::new(alloc),
        before: u64::MAX,
        marks: true,
    };
    for term in terms.split(", ") {
        let (word, rest) = cut(term);
        match word {
            "order" => push_items(&mut drive.order, rest)?,
            "stop" => push_stop(&mut drive.stops, rest)?,
            "before" => drive.before = number(rest).unwrap_or(0),
            "unmarked" => drive.marks = false,
            _ => {}
        }
    }
    Ok(drive)
}

// A word, and how many times it counts.
fn counted(word: &str) -> (&str, u64) {
    match word.split_once('x') {
        Some((word, count)) => (word, number(count).unwrap_or(0)),
        None => (word, 1),
    }
}

fn push_stop(stops: &mut List<(u32, u64)>, text: &str) -> Result<(), NoMemory> {
    let (actor, calls) = cut(text);
    let actor = actor_number(actor);
    stops.push((actor, number(calls).unwrap_or(0)))
}

fn push_items(items: &mut List<Item>, text: &str) -> Result<(), NoMemory> {
    for word in text.split(' ') {
        let (word, count) = counted(word);
        let item = item_of(word);
        for _ in 0..count {
            items.push(item)?;
        }
    }
    Ok(())
}

// `+MS`, `ACTOR*` or `ACTOR*CALLS`.
fn item_of(word: &str) -> Item {
    if let Some(ms) = word.strip_prefix("+") {
        let ms = number(ms).unwrap_or(0);
        return Item::Ahead { ms };
    }
    let (actor, calls) = word.split_once('*').unwrap_or((word, ""));
    let actor = actor_number(actor);
    match number(calls) {
        Some(k) => Item::Calls { actor, k },
        None => Item::All { actor },
    }
}

fn workers_of(alloc: Global, text: &str) -> Result<List<Worker>, NoMemory>
    ensures { IfOk result AreFresh }
{
    let mut workers = List::new(alloc);
    for word in text.split(' ') {
        let (word, count) = counted(word);
        for _ in 0..count {
            push_worker(&mut workers, word)?;
        }
    }
    Ok(workers)
}

fn push_worker(workers: &mut List<Worker>, word: &str) -> Result<(), NoMemory>
    requires { AreFresh workers.old }
    ensures { AreFresh workers.new }
{
    let worker = worker_of(word);
    workers.push(worker)
}

fn worker_of(word: &str) -> Worker
    ensures { IsFresh result }
{
    let looks = word.get(1..).unwrap_or("").parse::<u32>().unwrap_or(0);
    if word.starts_with('w') {
        return Worker::Watches(Watcher {
            looks,
            left: looks,
            stopped: false,
        });
    }
    Worker::Reads(Reader::new(0, looks))
}

// Drives actors, numbered from 1, and answers whether memory was refused, and what the node kept.
fn run(alloc: Global, workers: &mut List<Worker>, drive: Drive) -> Result<(bool, Kept), NoMemory>
    requires few { length workers.old < 2 ^ 31 }
    requires fresh { AreFresh workers.old }
{
    let clock = StepClock { next: 0, step: 0 };
    let mut node = Refusing {
        node: empty_node(alloc, Faults::new(alloc), Some((1000, 1)), clock)?,
        before: drive.before,
        marks: drive.marks,
    };
    let refused = drive_in_order(alloc, &mut node, 1, workers, &drive.stops, &drive.order);
    Ok((refused, node.finish()))
}

// Of more than thirty calls only the number is told.
const MOST_CALLERS: usize = 30;

fn told(alloc: Global, refused: bool, kept: &Kept, workers: &List<Worker>) -> Result<String> {
    let mut told = String::new(alloc);
    if refused {
        told.push_str("refused; ")?;
    }
    push_callers(&mut told, kept)?;
    for mark in kept.marks.iter() {
        let (place, ms) = (mark.place, mark.ms);
        write!(told, ", mark {place} {ms}")?;
    }
    push_stopped(&mut told, workers)?;
    Ok(told)
}

fn push_callers(told: &mut String, kept: &Kept) -> Result<()> {
    let count = kept.history.len();
    write!(told, "{count} calls")?;
    if count <= MOST_CALLERS {
        for event in kept.history.iter() {
            let actor = event.actor;
            write!(told, " {actor}")?;
        }
    }
    Ok(())
}

fn push_stopped(told: &mut String, workers: &List<Worker>) -> Result<()> {
    for (place, worker) in workers.iter().enumerate() {
        if worker.is_stopped() {
            let number = place.saturating_add(1);
            write!(told, ", {number} stopped")?;
        }
    }
    Ok(())
}

/// A law: the order of turns and its marks, by the written order, and without one behind three calls.
pub fn written_order()
    ensures turns { turns counts actors order [] ≡ 2 ∷ 2 ∷ 1 ∷ 1 ∷ 1 ∷ 2 ∷ 3 ∷ 2 ∷ 3 ∷ [] }
    ensures marks { marks_of counts order []
        ≡ record { place = 0; ms = 10 } ∷ record { place = 2; ms = 20 } ∷ record { place = 5; ms = 30 } ∷ [] }
    ensures goes_on { turns counts actors [] (1 ∷ 1 ∷ 2 ∷ []) ≡ 1 ∷ 1 ∷ 2 ∷ 1 ∷ 2 ∷ 3 ∷ 2 ∷ 3 ∷ 2 ∷ [] }
{}
