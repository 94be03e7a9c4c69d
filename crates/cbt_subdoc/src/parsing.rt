//! The reading of a path's text, part by part.
ghost use Rattle.std.specs.Prelude.{◌≡◌, ◌<◌, ◌≤◌, ◌==◌, ◌+◌, ◌-◌, ◌*◌, if◌then◌else◌, length, drop, slice_index, Some, None};
ghost use Rattle.std.specs.List.{prefix_len};
ghost use Rattle.cbt_subdoc.specs.declared.parsing.Stop.TheVariants.{NoMemory as no_memory};
ghost use Rattle.cbt_subdoc.specs.Paths.{is_plain, closed, digits, may_follow, last_place, place_at, quoted, name_at, first_at, next_at, parts_of};
ghost use Rattle.cbt_subdoc.specs.Readings.{Reads, ReadsName};

use crate::path::Part;
use cbt_base::{List, NoMemory, Text};
use std::alloc::Global;

/// Why the reading of a text stopped.
pub(crate) enum Stop {
    /// So many bytes are left from the first at which no path goes on.
    Left(usize),
    NoMemory,
}

impl From<NoMemory> for Stop {
    ghost from_gives = { λ _ stop. stop ≡ no_memory };

    fn from(_refused: NoMemory) -> Stop {
        Stop::NoMemory
    }
}

/// The parts of a path's text.
pub(crate) fn parts_of(alloc: Global, text: &str) -> Result<List<Part>, Stop>
    ensures { Reads (λ parts. parts) result (parts_of text.now) }
{
    let (first, mut rest) = first_part(alloc, text)?;
    let mut parts = List::new(alloc);
    parts.push(first)?;
    while rest.len() > 0 {
        let (part, behind) = next_part(alloc, rest)?;
        parts.push(part)?;
        rest = behind;
    }
    Ok(parts)
}

fn first_part(alloc: Global, text: &str) -> Result<(Part, &str), Stop>
    ensures { Reads (λ x. (x.0, x.1.now)) result (first_at text.now) }
{
    match text.as_bytes() {
        [b'[', ..] => place(behind_first(text)),
        _ => name(alloc, text),
    }
}

fn next_part(alloc: Global, text: &str) -> Result<(Part, &str), Stop>
    ensures { Reads (λ x. (x.0, x.1.now)) result (next_at text.now) }
{
    match text.as_bytes() {
        [b'.', ..] => name(alloc, behind_first(text)),
        [b'[', ..] => place(behind_first(text)),
        _ => Err(Stop::Left(text.len())),
    }
}

// What stands behind the first byte, which is ASCII.
fn behind_first(text: &str) -> &str
    requires { (0 < length text.now) × (slice_index text.now 0 < 128) }
    ensures { result.now ≡ drop 1 text.now }
{
    text.split_at(1).1
}

fn name(alloc: Global, text: &str) -> Result<(Part, &str), Stop>
    ensures { Reads (λ x. (x.0, x.1.now)) result (name_at text.now) }
{
    match text.as_bytes() {
        [b'`', ..] => {
            let (name, rest) = quoted_name(alloc, behind_first(text))?;
            Ok((Part::Name(name), rest))
        }
        _ => {
            let len = plain_len(text.as_bytes());
            if len == 0 {
                return Err(Stop::Left(text.len()));
            }
            let (name, rest) = text.split_at(len);
            Ok((Part::Name(Text::from_str(alloc, name)?), rest))
        }
    }
}

fn plain_len(bytes: &[u8]) -> usize
    ensures len { result ≡ prefix_len is_plain bytes.now }
    ensures within { result ≤ length bytes.now }
{
    bytes
        .iter()
        .take_while(|byte| is_plain_byte(**byte))
        .count()
}

fn is_plain_byte(byte: u8) -> bool
    ensures { result ≡ is_plain byte }
{
    byte != b'.' && byte != b'[' && byte != b']' && byte != b'`'
}

// A name behind its opening backtick.
fn quoted_name(alloc: Global, text: &str) -> Result<(Text, &str), Stop>
    ensures { ReadsName (λ x. (x.0, x.1.now)) result (quoted text.now) }
{
    let mut name = Text::from_str(alloc, "")?;
    let mut rest = text;
    while let Some((piece, behind)) = rest.split_once('`') {
        name.push_str(piece)?;
        if !behind.starts_with('`') {
            return Ok((name, behind));
        }
        name.push_str("`")?;
        rest = behind_first(behind);
    }
    Err(Stop::Left(0))
}

// A place behind its opening bracket.
fn place(text: &str) -> Result<(Part, &str), Stop>
    ensures { Reads (λ x. (x.0, x.1.now)) result (place_at text.now) }
{
    match text.as_bytes() {
        [b'-', ..] => last_place(behind_first(text)),
        [b'0', ..] => closed(Part::Place(0), behind_first(text)),
        [digit, ..] if digit.is_ascii_digit() => {
            numbered(u32::from(*digit - b'0'), behind_first(text))
        }
        _ => Err(Stop::Left(text.len())),
    }
}

fn last_place(text: &str) -> Result<(Part, &str), Stop>
    ensures { Reads (λ x. (x.0, x.1.now)) result (last_place text.now) }
{
    match text.as_bytes() {
        [b'1', ..] => closed(Part::Last, behind_first(text)),
        _ => Err(Stop::Left(text.len())),
    }
}

// The further digits of a place, and its closing bracket.
fn numbered(first: u32, text: &str) -> Result<(Part, &str), Stop>
    ensures { Reads (λ x. (x.0, x.1.now)) result (digits first text.now) }
{
    let mut n = first;
    for (at, byte) in text.as_bytes().iter().enumerate() {
        match with_digit(n, *byte) {
            Some(more) => n = more,
            None => return closed(Part::Place(n), text.split_at(at).1),
        }
    }
    Err(Stop::Left(0))
}

// The number with one more digit, where it stays below 2^31.
fn with_digit(n: u32, byte: u8) -> Option<u32>
    ensures { result ≡ (if may_follow n byte then Some (n * 10 + (byte - 48)) else None) }
{
    if !byte.is_ascii_digit() {
        return None;
    }
    let more = n.checked_mul(10)?.checked_add(u32::from(byte - b'0'))?;
    if more < 1 << 31 { Some(more) } else { None }
}

// A part before its closing bracket.
fn closed(part: Part, text: &str) -> Result<(Part, &str), Stop>
    ensures { Reads (λ x. (x.0, x.1.now)) result (closed part text.entry.now) }
{
    match text.as_bytes() {
        [b']', ..] => Ok((part, behind_first(text))),
        _ => Err(Stop::Left(text.len())),
    }
}
