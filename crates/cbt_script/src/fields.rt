//! The fields of a line, from the left: each is read off the front of what is left of the line.

ghost use Rattle.std.specs.Prelude.{◌≡◌, ◌≤◌, ◌⊎◌, IfOk};
ghost use Rattle.cbt_script.specs.Causes.{Finds, Gives, require};
ghost use Rattle.cbt_script.specs.Fields.{word_field, name_field, actor_field, number_in, number_field, option_field, fixed_field, end_field, id_field, body_field};

use crate::cause::{Cause, LineFault};
use cbt_base::{DocId, IdFault};
use cbt_json::{Json, JsonFault};
use cbt_lex::{cut_word, is_a_name, number as decimal};
use std::alloc::Global;

/// Nothing, where a test holds.
pub(crate) fn require(holds: bool, why: Cause) -> Result<(), Cause>
    ensures { result ≡ require holds why }
{
    if holds { Ok(()) } else { Err(why) }
}

/// The next word.
pub(crate) fn word(text: &str) -> Result<(&str, &str), Cause>
    ensures { Finds (λ x. (x.0.now, x.1.now)) result (word_field text.now) }
{
    if text.len() == 0 {
        Err(Cause::Form)
    } else {
        Ok(cut_word(text))
    }
}

/// A name.
#[tactic(auto, unfolding(crate::specs::Fields::name_field))]
pub(crate) fn name(text: &str) -> Result<(&str, &str), Cause>
    ensures { Finds (λ x. (x.0.now, x.1.now)) result (name_field text.now) }
{
    let (name, rest) = word(text)?;
    require(is_a_name(name), Cause::Name)?;
    Ok((name, rest))
}

/// A name that an actor may have.
#[tactic(auto, unfolding(crate::specs::Fields::actor_field))]
pub(crate) fn actor(text: &str) -> Result<(&str, &str), Cause>
    ensures { Finds (λ x. (x.0.now, x.1.now)) result (actor_field text.now) }
{
    let (name, rest) = name(text)?;
    require(name != "sweep", Cause::Name)?;
    Ok((name, rest))
}

/// A number within two limits.
#[tactic(auto, unfolding(crate::specs::Fields::number_field))]
pub(crate) fn number(text: &str, least: u64, most: u64) -> Result<(u64, &str), Cause>
    ensures found { Finds (λ x. (x.0, x.1.now)) result (number_field least most text.now) }
    ensures within { IfOk result (λ x. (least ≤ x.0) × (x.0 ≤ most)) }
{
    let (word, rest) = word(text)?;
    let n = number_within(word, least, most)?;
    Ok((n, rest))
}

/// The number within two limits that a word is.
pub(crate) fn number_within(word: &str, least: u64, most: u64) -> Result<u64, Cause>
    ensures found { result ≡ number_in least most word.now }
    ensures within { IfOk result (λ n. (least ≤ n) × (n ≤ most)) }
{
    match decimal(word) {
        Some(n) if least <= n && n <= most => Ok(n),
        _ => Err(Cause::Number),
    }
}

/// A number behind a word of its own, where that word stands next, and otherwise a default.
pub(crate) fn option<'a>(
    text: &'a str,
    name: &str,
    most: u64,
    default: u64,
) -> Result<(u64, &'a str), Cause>
    ensures found { Finds (λ x. (x.0, x.1.now)) result (option_field name.now most default text.now) }
    ensures within { IfOk result (λ x. (x.0 ≤ most) ⊎ (x.0 ≡ default)) }
{
    let (found, rest) = cut_word(text);
    if found == name {
        number(rest, 1, most)
    } else {
        Ok((default, text))
    }
}

/// A word that has to stand next.
#[tactic(auto, unfolding(crate::specs::Fields::fixed_field))]
pub(crate) fn fixed<'a>(text: &'a str, wanted: &str) -> Result<&'a str, Cause>
    ensures { Finds (λ x. x.now) result (fixed_field wanted.now text.now) }
{
    let (found, rest) = word(text)?;
    require(found == wanted, Cause::Form)?;
    Ok(rest)
}

/// The end of the line.
pub(crate) fn end(text: &str) -> Result<(), Cause>
    ensures { result ≡ end_field text.now }
{
    require(text.len() == 0, Cause::Form)
}

/// A document's identifier.
#[tactic(auto, unfolding(crate::specs::Fields::id_field))]
pub(crate) fn id(alloc: Global, text: &str) -> Result<(DocId, &str), LineFault>
    ensures { Gives (λ x. (x.0, x.1.now)) result (id_field text.now) }
{
    let (word, rest) = word(text)?;
    match DocId::new(alloc, word) {
        Ok(id) => Ok((id, rest)),
        Err(IdFault::NoMemory) => Err(LineFault::NoMemory),
        Err(_) => Err(LineFault::Refused(Cause::Id)),
    }
}

/// A JSON that may be a body: the rest of the line.
pub(crate) fn body(alloc: Global, text: &str) -> Result<Json, LineFault>
    ensures { Gives (λ x. x) result (body_field text.now) }
{
    if text.len() == 0 {
        return Err(LineFault::Refused(Cause::Form));
    }
    match Json::read(alloc, text.as_bytes()) {
        Ok(json) if json.body_fits() => Ok(json),
        Ok(_) => Err(LineFault::Refused(Cause::Big)),
        Err(JsonFault::NotJson) => Err(LineFault::Refused(Cause::NotJson)),
        Err(JsonFault::NotWhole) => Err(LineFault::Refused(Cause::NotWhole)),
        Err(JsonFault::NoMemory) => Err(LineFault::NoMemory),
    }
}
