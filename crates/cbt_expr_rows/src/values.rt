//! The values of expressions, and whether conditions hold.

use crate::arguments::{RowFault, count_of, show, two_parts};
use cbt_base::{Duplicate, Map, Text};
use cbt_expr::{Cond, Expr, eval, holds};
use cbt_json::Json;
use cbt_syntax::{read_cond, read_expr};
use std::alloc::Global;

/// What gets have bound to names.
type Bound = Map<Text, Option<Json>>;

/// `value NAME=TEXT .. | EXPRESSION`: the value of a copy of it. Where there is no text, no document was
/// there; a name without `=` is known to the expression's text alone.
pub fn value(alloc: Global, out: &mut String, argument: &str) -> Result<(), RowFault> {
    let (bindings, text) = two_parts(argument, " | ")?;
    show_expr(alloc, out, text, bindings)
}

/// `long_value BYTES`: a text of so many bytes.
pub fn long_value(alloc: Global, out: &mut String, bytes: &str) -> Result<(), RowFault> {
    let text = long_text(alloc, bytes)?;
    show_expr(alloc, out, &text, "x=")
}

/// `holds NAME=TEXT .. | CONDITION`: whether a copy of it holds.
pub fn truth(alloc: Global, out: &mut String, argument: &str) -> Result<(), RowFault> {
    let (bindings, text) = two_parts(argument, " | ")?;
    show_cond(alloc, out, text, bindings)
}

/// `long_left BYTES BINDING`: whether a text of so many bytes equals what is bound to `y`.
pub fn long_left(alloc: Global, out: &mut String, argument: &str) -> Result<(), RowFault> {
    let (bytes, bindings) = two_parts(argument, " ")?;
    let mut text = long_text(alloc, bytes)?;
    text.push_str("==@y")?;
    show_cond(alloc, out, &text, bindings)
}

/// `long_right BYTES BINDING`: the same, the other way round.
pub fn long_right(alloc: Global, out: &mut String, argument: &str) -> Result<(), RowFault> {
    let (bytes, bindings) = two_parts(argument, " ")?;
    let mut text = String::from_str(alloc, "@y==")?;
    text.push_str(&long_text(alloc, bytes)?)?;
    show_cond(alloc, out, &text, bindings)
}

// A text of JSON with so many bytes, at least two.
fn long_text(alloc: Global, bytes: &str) -> Result<String, RowFault> {
    let inside = count_of(bytes)?.saturating_sub(2);
    let mut text = String::from_str(alloc, "\"")?;
    text.push_str(&"x".repeat(alloc, inside)?)?;
    text.push('"')?;
    Ok(text)
}

fn show_expr(alloc: Global, out: &mut String, text: &str, bindings: &str) -> Result<(), RowFault> {
    let names = bound_to(alloc, bindings, true)?;
    match read_expr(alloc, text, &names) {
        Ok(expr) => show_copied(alloc, out, &expr, bindings),
        Err(_) => Err(RowFault::NoSuchRow),
    }
}

fn show_copied(
    alloc: Global,
    out: &mut String,
    expr: &Expr,
    bindings: &str,
) -> Result<(), RowFault> {
    let copy = expr.copy(alloc)?;
    show_value(alloc, out, &copy, bindings)
}

fn show_value(
    alloc: Global,
    out: &mut String,
    expr: &Expr,
    bindings: &str,
) -> Result<(), RowFault> {
    let bound = bound_to(alloc, bindings, false)?;
    match eval(alloc, expr, &bound) {
        Ok(value) => show_json(alloc, out, &value),
        Err(fault) => Ok(write!(out, "{fault}")?),
    }
}

fn show_json(alloc: Global, out: &mut String, value: &Json) -> Result<(), RowFault> {
    let text = value.text(alloc)?;
    show(out, text.as_str())
}

fn show_cond(alloc: Global, out: &mut String, text: &str, bindings: &str) -> Result<(), RowFault> {
    let names = bound_to(alloc, bindings, true)?;
    match read_cond(alloc, text, &names) {
        Ok(cond) => show_truth(alloc, out, &cond, bindings),
        Err(_) => Err(RowFault::NoSuchRow),
    }
}

fn show_truth(
    alloc: Global,
    out: &mut String,
    cond: &Cond,
    bindings: &str,
) -> Result<(), RowFault> {
    let copy = cond.copy(alloc)?;
    show_copied_truth(alloc, out, &copy, bindings)
}

fn show_copied_truth(
    alloc: Global,
    out: &mut String,
    cond: &Cond,
    bindings: &str,
) -> Result<(), RowFault> {
    let bound = bound_to(alloc, bindings, false)?;
    match holds(alloc, cond, &bound) {
        Ok(truth) => Ok(write!(out, "{truth}")?),
        Err(fault) => Ok(write!(out, "{fault}")?),
    }
}

// The names of bindings, with what is bound to them; those without `=` too where `all` is set.
fn bound_to(alloc: Global, bindings: &str, all: bool) -> Result<Bound, RowFault> {
    let mut bound = Map::new(alloc);
    for binding in bindings.split(' ') {
        if all || binding.contains('=') {
            bind(alloc, &mut bound, binding)?;
        }
    }
    Ok(bound)
}

fn bind(alloc: Global, bound: &mut Bound, binding: &str) -> Result<(), RowFault> {
    let (name, text) = binding.split_once('=').unwrap_or((binding, ""));
    let document = document(alloc, text)?;
    let name = Text::from_str(alloc, name)?;
    Ok(bound.insert(name, document)?)
}

// The document of a text; none where it is empty.
fn document(alloc: Global, text: &str) -> Result<Option<Json>, RowFault> {
    if text.is_empty() {
        return Ok(None);
    }
    match Json::read(alloc, text.as_bytes()) {
        Ok(json) => Ok(Some(json)),
        Err(_) => Err(RowFault::NoSuchRow),
    }
}
