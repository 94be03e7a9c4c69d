//! Events as lines.

ghost use Rattle.std.specs.Prelude.{◌≡◌, ◌+◌, ◌-◌, ◌^◌, ◌≤◌, ◌++◌, length, OnOk, codes, decimal};
ghost use Rattle.cbt_base.specs.Clock.{clock_of};
ghost use Rattle.cbt_lex.specs.Lines.{lined};
ghost use Rattle.cbt_history.specs.Events.{fate_word, head_text, event_line, event_lines};

use crate::replies::push_reply;
use crate::steps::push_step;
use cbt_base::{Duplicate, NoMemory, Text};
use cbt_lex::push_number;
use cbt_model::{Event, Fate, Kept, Reply, perform};
use std::alloc::Global;

/// Puts the events of a run at the end, a line each. What each was answered is found again by letting
/// them happen from the opening on.
pub(crate) fn push_events(alloc: Global, out: &mut Text, kept: &Kept) -> Result<(), NoMemory>
    requires last { kept.now.opening.last ≤ clock_of (2 ^ 43 - 1) + 2 ^ 32 }
    requires short { length kept.now.history ≤ 2 ^ 62 }
    ensures { OnOk result (out.new ≡ out.old ++ lined (event_lines 0 kept.now.opening kept.now.history)) }
{
    let mut state = kept.opening.copy(alloc)?;
    let mut place: u64 = 0;
    for event in kept.history.as_slice() {
        let happened = perform(alloc, &mut state, event)?;
        push_event(alloc, out, place, event, &happened.reply)?;
        place += 1;
    }
    Ok(())
}

// The line of an event and what it was answered.
fn push_event(
    alloc: Global,
    out: &mut Text,
    place: u64,
    event: &Event,
    reply: &Reply,
) -> Result<(), NoMemory>
    ensures { OnOk result (out.new ≡ out.old ++ (event_line place event.now reply.now ++ codes "\n")) }
{
    push_head(out, place, event)?;
    out.push_str(" ")?;
    push_step(alloc, out, &event.step)?;
    out.push_str(" = ")?;
    push_reply(out, reply)?;
    out.push_str("\n")
}

// When an event came, by whom, and what became of it.
fn push_head(out: &mut Text, place: u64, event: &Event) -> Result<(), NoMemory>
    ensures { OnOk result (out.new ≡ out.old ++ head_text place event.now) }
{
    push_number(out, place)?;
    out.push_str(" ")?;
    push_number(out, u64::from(event.actor))?;
    out.push_str(" ")?;
    push_number(out, event.reading)?;
    out.push_str(" ")?;
    out.push_str(fate_word(event.fate))
}

fn fate_word(fate: Fate) -> &'static str
    ensures { result.now ≡ fate_word fate }
{
    match fate {
        Fate::Plain => "plain",
        Fate::Lost => "lost",
        Fate::Late => "late",
    }
}
