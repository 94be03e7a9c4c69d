//! The reading of a history text.

ghost use Rattle.std.specs.Prelude.{◌≡◌, ◌⊎◌, ◌+◌, ◌^◌, ◌<◌, ◌≤◌, Some, None, Err, IfSome, MatchOption, ◌==◌, length, position, bytes_eq};
ghost use Rattle.cbt_lex.specs.Lines.{lined};
ghost use Rattle.cbt_lex.specs.Pieces.{pieces};
ghost use Rattle.cbt_history.specs.EventsRead.{event_at};
ghost use Rattle.cbt_history.specs.HistoriesRead.{ended_line, events_in, TellsLine, parts_of, parts_read, history_of_text};

use crate::events_read::event_at;
use crate::faults::{HistoryFault, LineFault};
use crate::scripts_read::read_script;
use cbt_base::List;
use cbt_model::Event;
use cbt_script::Script;
use std::alloc::Global;

/// Reads a history text: the script that it tells, and the events.
///
/// # Errors
///
/// `BadLine` with the first bad line, counted from 1 at the line `script`; where the text ends too
/// early, with one past the last. `NoMemory` where memory runs out.
#[tactic(auto, unfolding(crate::specs::HistoriesRead::history_of_text))]
pub fn history_read(alloc: Global, bytes: &[u8]) -> Result<(Script, List<Event>), HistoryFault>
    // So bytes have one answer, unless memory runs out.
    ensures answer { (result ≡ history_of_text bytes.now) ⊎ (result ≡ Err HistoryFault.NoMemory) }
{
    match ended_line(bytes) {
        Some((first, rest)) if is_line(first, "script") => read_parts(alloc, rest),
        _ => Err(HistoryFault::BadLine { line: 1 }),
    }
}

// Reads what stands behind the first line.
fn read_parts(alloc: Global, text: &[u8]) -> Result<(Script, List<Event>), HistoryFault>
    ensures answer { (result ≡ parts_read (parts_of (pieces 10 text.now))) ⊎ (result ≡ Err HistoryFault.NoMemory) }
{
    let Sections {
        script,
        lines,
        events,
    } = part(text);
    let script = read_script(alloc, script)?;
    match events {
        Some(events) => {
            let events = read_events(alloc, lines + 3, events)?;
            Ok((script, events))
        }
        None => {
            drop(script);
            Err(HistoryFault::BadLine { line: lines + 2 })
        }
    }
}

// A history text behind its first line.
struct Sections<'a> {
    // The lines before the line `events`.
    script: &'a [u8],
    // How many they are.
    lines: u64,
    // What stands behind the line `events`, where it is there.
    events: Option<&'a [u8]>,
}

// Parts a text at its first line `events`.
fn part(text: &[u8]) -> Sections<'_>
    ensures script { result.script.now ≡ lined (parts_of (pieces 10 text.now)).script }
    ensures lines { result.lines ≡ length (parts_of (pieces 10 text.now)).script }
    ensures short { result.lines ≤ length text.now }
    ensures events { MatchOption result.events ((parts_of (pieces 10 text.now)).events ≡ None)
        (λ e. ((parts_of (pieces 10 text.now)).events ≡ Some (pieces 10 e.now)) × (result.lines + length e.now ≤ length text.now)) }
{
    let mut lines: u64 = 0;
    let mut at = 0;
    while let Some((line, more)) = ended_line(&text[at..]) {
        if is_line(line, "events") {
            return Sections {
                script: &text[..at],
                lines,
                events: Some(more),
            };
        }
        lines += 1;
        at += line.len() + 1;
    }
    Sections {
        script: &text[..at],
        lines,
        events: None,
    }
}

// The first line of a text that has a line feed, and what stands behind it.
pub(crate) fn ended_line(text: &[u8]) -> Option<(&[u8], &[u8])>
    ensures { MatchOption result (ended_line text.now ≡ None) (λ x. ended_line text.now ≡ Some (x.0.now, x.1.now)) }
{
    match first_feed(text) {
        Some(at) => Some((&text[..at], &text[at + 1..])),
        None => None,
    }
}

// The place of the first line feed.
fn first_feed(text: &[u8]) -> Option<usize>
    ensures place { result ≡ position (λ b. b == 10) text.now }
    ensures within { IfSome result (λ at. at < length text.now) }
{
    text.iter().position(|byte| *byte == b'\n')
}

fn is_line(line: &[u8], wanted: &str) -> bool
    ensures { result ≡ bytes_eq line.now wanted.now }
{
    line == wanted.as_bytes()
}

// Reads the events of a text whose first line has this number.
fn read_events(alloc: Global, first: u64, text: &[u8]) -> Result<List<Event>, HistoryFault>
    requires { first + length text.now < 2 ^ 64 }
    ensures answer { (result ≡ events_in first 0 (pieces 10 text.now)) ⊎ (result ≡ Err HistoryFault.NoMemory) }
{
    let mut events = List::new(alloc);
    let mut place: u64 = 0;
    let mut rest = text;
    while let Some((line, more)) = ended_line(rest) {
        let event = read_line(alloc, first + place, place, line)?;
        events.push(event)?;
        place += 1;
        rest = more;
    }
    if rest.len() > 0 {
        drop(events);
        return Err(HistoryFault::BadLine {
            line: first + place,
        });
    }
    Ok(events)
}

// Reads the line with this number, of the event at this place.
fn read_line(alloc: Global, number: u64, place: u64, line: &[u8]) -> Result<Event, HistoryFault>
    ensures { TellsLine number result (event_at place line.now) }
{
    match event_at(alloc, place, line) {
        Ok(event) => Ok(event),
        Err(LineFault::Refused) => Err(HistoryFault::BadLine { line: number }),
        Err(LineFault::NoMemory) => Err(HistoryFault::NoMemory),
    }
}
