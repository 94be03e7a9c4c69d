//! The event that a line is.

ghost use Rattle.std.specs.Prelude.{◌≡◌};
ghost use Rattle.cbt_history.specs.Readings.{Finds, Gives};
ghost use Rattle.cbt_history.specs.EventsRead.{sides, place_field, fate_in, fate_field, answered_step, event_in, event_at};

use crate::faults::{BadField, LineFault};
use crate::fields::{last_cut, number, require, word};
use crate::reply_forms::answers;
use crate::steps_read::step_at;
use cbt_model::{Event, Fate, Step};
use std::alloc::Global;
use std::str;

/// Reads the line of the event at a place.
pub(crate) fn event_at(alloc: Global, place: u64, line: &[u8]) -> Result<Event, LineFault>
    ensures { Gives (λ event. event) result (event_at place line.now) }
{
    match str::from_utf8(line) {
        Ok(text) => read_event(alloc, place, text),
        Err(_) => Err(LineFault::Refused),
    }
}

#[tactic(auto, unfolding(crate::specs::EventsRead::event_in))]
fn read_event(alloc: Global, place: u64, text: &str) -> Result<Event, LineFault>
    ensures { Gives (λ event. event) result (event_in place text.now) }
{
    let (left, reply) = sides(text)?;
    let rest = place_field(place, left)?;
    let (actor, rest) = number(rest, u64::from(u32::MAX))?;
    let (reading, rest) = number(rest, u64::MAX)?;
    let (fate, rest) = fate_field(rest)?;
    let step = answered_step(alloc, rest, reply)?;
    Ok(Event {
        actor: actor as u32,
        step,
        fate,
        reading,
    })
}

// What stands on either side of the last ` = `.
#[tactic(auto, unfolding(crate::specs::EventsRead::sides))]
fn sides(line: &str) -> Result<(&str, &str), BadField>
    ensures { Finds (λ x. (x.0.now, x.1.now)) result (sides line.now) }
{
    let (front, back) = last_cut(line, '=')?;
    let (left, behind) = last_cut(front, ' ')?;
    let (before, right) = word(back)?;
    require(behind.len() == 0 && before.len() == 0)?;
    Ok((left, right))
}

// The number of an event's place, which is this one.
#[tactic(auto, unfolding(crate::specs::EventsRead::place_field))]
fn place_field(place: u64, text: &str) -> Result<&str, BadField>
    ensures { Finds (λ x. x.now) result (place_field place text.now) }
{
    let (n, rest) = number(text, u64::MAX)?;
    require(n == place)?;
    Ok(rest)
}

#[tactic(auto, unfolding(crate::specs::EventsRead::fate_field))]
fn fate_field(text: &str) -> Result<(Fate, &str), BadField>
    ensures { Finds (λ x. (x.0, x.1.now)) result (fate_field text.now) }
{
    let (word, rest) = word(text)?;
    let fate = fate_at(word)?;
    Ok((fate, rest))
}

fn fate_at(word: &str) -> Result<Fate, BadField>
    ensures { Finds (λ fate. fate) result (fate_in word.now) }
{
    match word {
        "plain" => Ok(Fate::Plain),
        "lost" => Ok(Fate::Lost),
        "late" => Ok(Fate::Late),
        _ => Err(BadField),
    }
}

// A step behind which a reply may stand.
#[tactic(auto, unfolding(crate::specs::EventsRead::answered_step))]
fn answered_step(alloc: Global, text: &str, reply: &str) -> Result<Step, LineFault>
    ensures { Gives (λ step. step) result (answered_step text.now reply.now) }
{
    let step = step_at(alloc, text)?;
    if answers(&step, reply) {
        Ok(step)
    } else {
        drop(step);
        Err(LineFault::Refused)
    }
}
