//! Calls on a text: lines, words, decimal numbers and names.

use crate::arguments::RowFault;
use crate::identifiers;
use cbt_base::Text;
use cbt_lex::{
    cut_line, cut_word, is_a_name, may_stand_in_name, number, past_spaces, push_number, trim,
};
use std::alloc::Global;
use std::str;

/// The answer to a row whose argument is a text between quotes.
pub fn answer(alloc: Global, out: &mut String, word: &str, text: &str) -> Result<(), RowFault> {
    match word {
        "doc_id" => identifiers::doc_id(alloc, out, text),
        "cut_line" => show_line(out, text),
        "trim" => show(out, trim(text.as_bytes())),
        "cut_word" => {
            let (front, rest) = cut_word(text);
            Ok(write!(out, "{front:?} {rest:?}")?)
        }
        "past_spaces" => Ok(write!(out, "{:?}", past_spaces(text))?),
        "number" => show_number(out, text),
        "push_numbers" => push_numbers(alloc, out, text),
        "is_a_name" => Ok(write!(out, "{}", is_a_name(text))?),
        "all_may_stand_in_name" => {
            let all = text.bytes().all(|byte| may_stand_in_name(byte));
            Ok(write!(out, "{all}")?)
        }
        _ => Err(RowFault::NoSuchRow),
    }
}

// The first line, and the text behind it.
fn show_line(out: &mut String, text: &str) -> Result<(), RowFault> {
    let (line, rest) = cut_line(text.as_bytes());
    show(out, line)?;
    out.push_str(" ")?;
    show(out, rest)
}

fn show(out: &mut String, bytes: &[u8]) -> Result<(), RowFault> {
    match str::from_utf8(bytes) {
        Ok(text) => Ok(write!(out, "{text:?}")?),
        Err(_) => Err(RowFault::NoSuchRow),
    }
}

fn show_number(out: &mut String, word: &str) -> Result<(), RowFault> {
    match number(word) {
        Some(number) => Ok(write!(out, "{number}")?),
        None => Ok(out.push_str("none")?),
    }
}

// The text with 0 and then the largest number at its end.
fn push_numbers(alloc: Global, out: &mut String, text: &str) -> Result<(), RowFault> {
    let mut text = Text::from_str(alloc, text)?;
    push_number(&mut text, 0)?;
    push_number(&mut text, u64::MAX)?;
    Ok(write!(out, "{text:?}")?)
}
