//! The texts of expressions and conditions.

use crate::arguments::{RowFault, count_of, show};
use cbt_base::{Map, NoMemory, Text};
use cbt_expr::{Cond, Expr};
use cbt_syntax::{SyntaxFault, push_cond, push_expr, read_cond, read_expr};
use std::alloc::Global;

/// `expr TEXT`: the canonical text, which reads as itself.
pub fn expr(alloc: Global, out: &mut String, text: &str) -> Result<(), RowFault> {
    let names = names(alloc)?;
    let canonical = match canonical_expr(alloc, text, &names) {
        Ok(canonical) => canonical,
        Err(fault) => return Ok(write!(out, "{fault}")?),
    };
    show(out, canonical.as_str())?;
    match canonical_expr(alloc, canonical.as_str(), &names) {
        Ok(again) if again == canonical => Ok(()),
        _ => Ok(out.push_str(" reads as another one")?),
    }
}

// The names `x` and `y1` are bound.
fn names(alloc: Global) -> Result<Map<Text, ()>, NoMemory> {
    let mut bound = Map::new(alloc);
    bound.insert(Text::from_str(alloc, "x")?, ())?;
    bound.insert(Text::from_str(alloc, "y1")?, ())?;
    Ok(bound)
}

fn canonical_expr(alloc: Global, text: &str, names: &Map<Text, ()>) -> Result<Text, SyntaxFault> {
    match read_expr(alloc, text, names) {
        Ok(expr) => text_of_expr(alloc, &expr),
        Err(fault) => Err(fault),
    }
}

fn text_of_expr(alloc: Global, expr: &Expr) -> Result<Text, SyntaxFault> {
    let mut text = Text::from_str(alloc, "")?;
    push_expr(alloc, &mut text, expr)?;
    Ok(text)
}

/// `nested DEPTH`: the number 1 inside so many lists.
pub fn nested(alloc: Global, out: &mut String, depth: &str) -> Result<(), RowFault> {
    let depth = count_of(depth)?;
    let mut text = "[".repeat(alloc, depth)?;
    text.push('1')?;
    text.push_str(&"]".repeat(alloc, depth)?)?;
    expr(alloc, out, &text)
}

/// `long_path BYTES`: a reference with so many bytes behind its dot.
pub fn long_path(alloc: Global, out: &mut String, bytes: &str) -> Result<(), RowFault> {
    let mut text = String::from_str(alloc, "@x.")?;
    text.push_str(&"a".repeat(alloc, count_of(bytes)?)?)?;
    expr(alloc, out, &text)
}

/// `cond TEXT`: the canonical text, which reads as itself.
pub fn cond(alloc: Global, out: &mut String, text: &str) -> Result<(), RowFault> {
    let names = names(alloc)?;
    let canonical = match canonical_cond(alloc, text, &names) {
        Ok(canonical) => canonical,
        Err(fault) => return Ok(write!(out, "{fault}")?),
    };
    show(out, canonical.as_str())?;
    match canonical_cond(alloc, canonical.as_str(), &names) {
        Ok(again) if again == canonical => Ok(()),
        _ => Ok(out.push_str(" reads as another one")?),
    }
}

fn canonical_cond(alloc: Global, text: &str, names: &Map<Text, ()>) -> Result<Text, SyntaxFault> {
    match read_cond(alloc, text, names) {
        Ok(cond) => text_of_cond(alloc, &cond),
        Err(fault) => Err(fault),
    }
}

fn text_of_cond(alloc: Global, cond: &Cond) -> Result<Text, SyntaxFault> {
    let mut text = Text::from_str(alloc, "")?;
    push_cond(alloc, &mut text, cond)?;
    Ok(text)
}
