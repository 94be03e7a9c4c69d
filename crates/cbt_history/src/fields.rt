//! The fields of an event's line.

ghost use Rattle.std.specs.Prelude.{◌≡◌, ◌<◌, ◌≤◌, IfOk};
ghost use Rattle.cbt_model.specs.Bodies.{body_fits_of};
ghost use Rattle.cbt_history.specs.Readings.{Finds, Gives, require};
ghost use Rattle.cbt_history.specs.Fields.{word_field, last_cut, number_in, number_field, id_in, id_field, doc_in, doc_field, json_in, body_in};

use crate::faults::{BadField, LineFault};
use cbt_base::{DocId, Id, IdFault};
use cbt_json::{Json, JsonFault};
use cbt_lex::number as decimal;
use std::alloc::Global;

/// Nothing, where a test holds.
pub(crate) fn require(holds: bool) -> Result<(), BadField>
    ensures { Finds (λ x. x) result (require holds) }
{
    if holds { Ok(()) } else { Err(BadField) }
}

/// The word before the next space, and what stands behind that.
pub(crate) fn word(text: &str) -> Result<(&str, &str), BadField>
    ensures { Finds (λ x. (x.0.now, x.1.now)) result (word_field text.now) }
{
    match text.split_once(' ') {
        Some((word, rest)) => Ok((word, rest)),
        None => Err(BadField),
    }
}

/// What stands on either side of the last of these characters, which is an ASCII one.
pub(crate) fn last_cut(text: &str, mark: char) -> Result<(&str, &str), BadField>
    requires { mark < 128 }
    ensures { Finds (λ x. (x.0.now, x.1.now)) result (last_cut mark text.now) }
{
    match text.rsplit_once(mark) {
        Some((front, back)) => Ok((front, back)),
        None => Err(BadField),
    }
}

/// The number up to a limit that a word is.
pub(crate) fn number_within(word: &str, most: u64) -> Result<u64, BadField>
    ensures found { Finds (λ n. n) result (number_in most word.now) }
    ensures within { IfOk result (λ n. n ≤ most) }
{
    match decimal(word) {
        Some(n) if n <= most => Ok(n),
        _ => Err(BadField),
    }
}

/// A number up to a limit, before the next space.
#[tactic(auto, unfolding(crate::specs::Fields::number_field))]
pub(crate) fn number(text: &str, most: u64) -> Result<(u64, &str), BadField>
    ensures found { Finds (λ x. (x.0, x.1.now)) result (number_field most text.now) }
    ensures within { IfOk result (λ x. x.0 ≤ most) }
{
    let (word, rest) = word(text)?;
    let n = number_within(word, most)?;
    Ok((n, rest))
}

/// The identifier that has this text.
pub(crate) fn id_at(word: &str) -> Result<Id, BadField>
    ensures { Finds (λ id. id) result (id_in word.now) }
{
    match Id::read(word) {
        Some(id) => Ok(id),
        None => Err(BadField),
    }
}

/// An identifier, before the next space.
#[tactic(auto, unfolding(crate::specs::Fields::id_field))]
pub(crate) fn id(text: &str) -> Result<(Id, &str), BadField>
    ensures { Finds (λ x. (x.0, x.1.now)) result (id_field text.now) }
{
    let (word, rest) = word(text)?;
    let id = id_at(word)?;
    Ok((id, rest))
}

/// The document that has this identifier.
pub(crate) fn doc_at(alloc: Global, word: &str) -> Result<DocId, LineFault>
    ensures { Gives (λ doc. doc) result (doc_in word.now) }
{
    match DocId::new(alloc, word) {
        Ok(doc) => Ok(doc),
        Err(IdFault::NoMemory) => Err(LineFault::NoMemory),
        Err(_) => Err(LineFault::Refused),
    }
}

/// A document, before the next space.
#[tactic(auto, unfolding(crate::specs::Fields::doc_field))]
pub(crate) fn doc(alloc: Global, text: &str) -> Result<(DocId, &str), LineFault>
    ensures { Gives (λ x. (x.0, x.1.now)) result (doc_field text.now) }
{
    let (word, rest) = word(text)?;
    let doc = doc_at(alloc, word)?;
    Ok((doc, rest))
}

/// The JSON whose canonical text this is.
pub(crate) fn json_at(alloc: Global, text: &str) -> Result<Json, LineFault>
    ensures { Gives (λ json. json) result (json_in text.now) }
{
    match Json::read(alloc, text.as_bytes()) {
        Ok(json) => {
            let canonical = json.text(alloc)?;
            if canonical.as_str() == text {
                Ok(json)
            } else {
                Err(LineFault::Refused)
            }
        }
        Err(JsonFault::NoMemory) => Err(LineFault::NoMemory),
        Err(_) => Err(LineFault::Refused),
    }
}

/// A JSON that may be a body.
#[tactic(auto, unfolding(crate::specs::Fields::body_in))]
pub(crate) fn body_at(alloc: Global, text: &str) -> Result<Json, LineFault>
    ensures { Gives (λ json. json) result (body_in text.now) }
{
    let body = json_at(alloc, text)?;
    if body_fits(&body) {
        Ok(body)
    } else {
        Err(LineFault::Refused)
    }
}

fn body_fits(body: &Json) -> bool
    ensures { result ≡ body_fits_of body.now }
{
    body.body_fits()
}
