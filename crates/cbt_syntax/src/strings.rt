//! JSON strings at the front of a text.
ghost use Rattle.std.specs.Prelude.{◌≡◌, ◌<◌, ◌+◌, false, not, ◌&&◌, ◌==◌, length, slice_index, Ok, IfSome};
ghost use Rattle.std.specs.List.{list_all};
ghost use Rattle.std.specs.Str.{IsCharBoundary};
ghost use Rattle.cbt_syntax.specs.Readings.{Reads};
ghost use Rattle.cbt_syntax.specs.Strings.{closing, literal, string_at, is_verbatim};

use crate::fault::SyntaxFault;
use crate::pieces::{behind, behind_first};
use cbt_base::Text;
use cbt_json::{Json, JsonFault, Tree};
use std::alloc::Global;

/// The string at the front, and what stands behind it.
pub(crate) fn string(alloc: Global, text: &str) -> Result<(Text, &str), SyntaxFault>
    ensures { Reads (λ x. (x.0, x.1.now)) result (string_at text.now) }
{
    match verbatim(text) {
        Some((front, rest)) => Ok((Text::from_str(alloc, front)?, rest)),
        None => escaped(alloc, text),
    }
}

// The string at the front, and what stands behind it, where each of its bytes stands for itself.
fn verbatim(text: &str) -> Option<(&str, &str)>
    ensures { IfSome result (λ x. string_at text.now ≡ Ok (x.0.now, x.1.now)) }
{
    let (front, rest) = behind(text, "\"")?.split_once('"')?;
    if are_verbatim(front.as_bytes()) {
        Some((front, rest))
    } else {
        None
    }
}

fn are_verbatim(bytes: &[u8]) -> bool
    ensures { result ≡ list_all is_verbatim bytes.now }
{
    bytes.iter().all(|byte| is_verbatim(*byte))
}

// Whether a byte between quotes stands for itself.
fn is_verbatim(byte: u8) -> bool
    ensures { result ≡ is_verbatim byte }
{
    byte >= b' ' && byte != b'"' && byte != b'\\'
}

// The string at the front, which may hold escapes, and what stands behind it.
#[tactic(auto, unfolding(crate::specs::Strings::string_at))]
fn escaped(alloc: Global, text: &str) -> Result<(Text, &str), SyntaxFault>
    ensures { Reads (λ x. (x.0, x.1.now)) result (string_at text.now) }
{
    match text.as_bytes() {
        [b'"', ..] => match closing_quote(behind_first(text)) {
            Some(at) => literal(alloc, text, at + 2),
            None => Err(SyntaxFault::Malformed),
        },
        _ => Err(SyntaxFault::Malformed),
    }
}

// The place of the first quote that no backslash escapes.
fn closing_quote(text: &str) -> Option<usize>
    ensures place { result ≡ closing 0 false text.now }
    ensures quote { IfSome result (λ at. (at < length text.now) × (slice_index text.now at ≡ 34)) }
{
    let mut escaped = false;
    for (at, byte) in text.as_bytes().iter().enumerate() {
        if is_plain(escaped, *byte, b'"') {
            return Some(at);
        }
        escaped = is_plain(escaped, *byte, b'\\');
    }
    None
}

// Whether a byte that is not escaped is this one.
fn is_plain(escaped: bool, byte: u8, wanted: u8) -> bool
    ensures { result ≡ (not escaped && (byte == wanted)) }
{
    !escaped && byte == wanted
}

// A literal of so many bytes.
fn literal(alloc: Global, text: &str, len: usize) -> Result<(Text, &str), SyntaxFault>
    requires { IsCharBoundary text.now len }
    ensures { Reads (λ x. (x.0, x.1.now)) result (literal len text.now) }
{
    let (front, rest) = text.split_at(len);
    match Json::read(alloc, front.as_bytes()) {
        Ok(json) => match json.into_tree() {
            Tree::Text(string) => Ok((string, rest)),
            _ => Err(SyntaxFault::Malformed),
        },
        Err(JsonFault::NoMemory) => Err(SyntaxFault::NoMemory),
        Err(_) => Err(SyntaxFault::Malformed),
    }
}
