//! References: a name, and a path into what is bound to it.
ghost use Rattle.std.specs.Prelude.{◌≡◌, ◌≤◌, Some, length, take, drop};
ghost use Rattle.std.specs.List.{prefix_len};
ghost use Rattle.std.specs.Str.{IsCharBoundary};
ghost use Rattle.cbt_lex.specs.Names.{is_name_byte};
ghost use Rattle.cbt_subdoc.specs.Paths.{path_of};
ghost use Rattle.cbt_syntax.specs.Readings.{Reads};
ghost use Rattle.cbt_syntax.specs.References.{is_word_byte, stops, led_to, path_end, as_path, named_path, path_in, path_at};

use crate::fault::SyntaxFault;
use crate::pieces::behind_first;
use cbt_lex::may_stand_in_name;
use cbt_subdoc::{Path, PathFault};
use std::alloc::Global;

/// Where a byte stands in the text of a path.
#[derive(Clone, Copy)]
pub(crate) enum Within {
    /// Among dots and words.
    Steps,
    /// Between backticks.
    Ticks,
    /// Between brackets.
    Brackets,
}

/// Whether a byte is an ASCII letter, a digit or `_`.
pub(crate) fn is_word_byte(byte: u8) -> bool
    ensures { result ≡ is_word_byte byte }
{
    may_stand_in_name(byte) || byte.is_ascii_uppercase()
}

// Whether the text of a path does not go on with a byte.
fn stops(within: Within, byte: u8) -> bool
    ensures { result ≡ stops within byte }
{
    match within {
        Within::Steps => !(byte == b'.' || byte == b'[' || byte == b'`' || is_word_byte(byte)),
        _ => false,
    }
}

// Where the next byte stands.
fn led_to(within: Within, byte: u8) -> Within
    ensures { result ≡ led_to within byte }
{
    match within {
        Within::Steps => match byte {
            b'`' => Within::Ticks,
            b'[' => Within::Brackets,
            _ => Within::Steps,
        },
        Within::Ticks if byte == b'`' => Within::Steps,
        Within::Brackets if byte == b']' => Within::Steps,
        _ => within,
    }
}

// The place of the first byte with which the text of a path does not go on.
fn path_end(text: &str) -> usize
    ensures place { result ≡ path_end 0 Within.Steps text.now }
    ensures boundary { IsCharBoundary text.now result }
{
    let mut within = Within::Steps;
    for (at, byte) in text.as_bytes().iter().enumerate() {
        if stops(within, *byte) {
            return at;
        }
        within = led_to(within, *byte);
    }
    text.len()
}

/// How many bytes at the front may stand in a name.
pub(crate) fn name_len(text: &str) -> usize
    ensures len { result ≡ prefix_len is_name_byte text.now }
    ensures boundary { IsCharBoundary text.now result }
{
    name_bytes(text.as_bytes())
}

fn name_bytes(bytes: &[u8]) -> usize
    ensures { result ≡ prefix_len is_name_byte bytes.now }
{
    bytes
        .iter()
        .take_while(|byte| may_stand_in_name(**byte))
        .count()
}

/// A path at the front, or none, and what stands behind it.
pub(crate) fn path(alloc: Global, text: &str) -> Result<(Option<Path>, &str), SyntaxFault>
    ensures { Reads (λ x. (x.0, x.1.now)) result (path_at text.now) }
{
    let (front, rest) = text.split_at(path_end(text));
    Ok((path_in(alloc, front)?, rest))
}

// The path that the text behind a name is.
fn path_in(alloc: Global, text: &str) -> Result<Option<Path>, SyntaxFault>
    ensures { Reads (λ path. path) result (path_in text.now) }
{
    match text.as_bytes() {
        [] => Ok(None),
        [b'.', ..] => named_path(alloc, behind_first(text)),
        [b'[', ..] => parsed(alloc, text),
        _ => Err(SyntaxFault::Malformed),
    }
}

// A path whose first part is a name, behind its dot.
fn named_path(alloc: Global, text: &str) -> Result<Option<Path>, SyntaxFault>
    ensures { Reads (λ path. path) result (named_path text.now) }
{
    match text.as_bytes() {
        [] | [b'[', ..] => Err(SyntaxFault::Malformed),
        _ => parsed(alloc, text),
    }
}

fn parsed(alloc: Global, text: &str) -> Result<Option<Path>, SyntaxFault>
    ensures { Reads (λ path. path) result (as_path (path_of text.now)) }
{
    match Path::parse(alloc, text) {
        Ok(path) => Ok(Some(path)),
        Err(PathFault::NoMemory) => Err(SyntaxFault::NoMemory),
        Err(_) => Err(SyntaxFault::Malformed),
    }
}
