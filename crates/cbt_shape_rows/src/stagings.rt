//! Stagings and the attribute `txn`.
ghost use Rattle.std.specs.Prelude.{◌≤◌, IsTrue};
ghost use Rattle.cbt_json.specs.Trees.{levels};
ghost use Rattle.cbt_meta.specs.Stagings.{HasContent};

use crate::arguments::{RowFault, id, json, number, show, show_id, word};
use cbt_json::Json;
use cbt_model::{OpKind, Stage};
use std::alloc::Global;

/// How many levels a content may have.
const MAX_LEVELS: u32 = 125;

/// `read_txn JSON`: the attempt, the number of its record, the kind and the content.
pub fn read_txn(alloc: Global, out: &mut String, argument: &str) -> Result<(), RowFault> {
    match cbt_meta::read(alloc, &json(alloc, argument)?) {
        Ok(stage) => show_stage(alloc, out, &stage),
        Err(fault) => Ok(write!(out, "{fault}")?),
    }
}

fn show_stage(alloc: Global, out: &mut String, stage: &Stage) -> Result<(), RowFault> {
    show_id(alloc, out, stage.attempt)?;
    write!(out, " {} {}", stage.atr, kind_word(stage.kind))?;
    match &stage.content {
        Some(content) => {
            out.push(' ')?;
            show(alloc, out, content)
        }
        None => Ok(()),
    }
}

fn kind_word(kind: OpKind) -> &'static str {
    match kind {
        OpKind::Insert => "insert",
        OpKind::Replace => "replace",
        OpKind::Remove => "remove",
    }
}

/// `write_txn ATTEMPT ATR insert JSON`, or `replace JSON`, or `remove`
pub fn write_txn(alloc: Global, out: &mut String, argument: &str) -> Result<(), RowFault> {
    let (attempt, rest) = word(argument);
    let (atr, rest) = word(rest);
    let (kind, rest) = word(rest);
    let stage = match kind {
        "insert" => Stage {
            attempt: id(attempt)?,
            atr: number(atr)?,
            kind: OpKind::Insert,
            content: Some(json(alloc, rest)?),
        },
        "replace" => Stage {
            attempt: id(attempt)?,
            atr: number(atr)?,
            kind: OpKind::Replace,
            content: Some(json(alloc, rest)?),
        },
        "remove" => Stage {
            attempt: id(attempt)?,
            atr: number(atr)?,
            kind: OpKind::Remove,
            content: None,
        },
        _ => return Err(RowFault::NoSuchRow),
    };
    show_written(alloc, out, &stage)
}

fn show_written(alloc: Global, out: &mut String, stage: &Stage) -> Result<(), RowFault> {
    if !has_content(stage) {
        return Err(RowFault::NoSuchRow);
    }
    show(alloc, out, &cbt_meta::write(alloc, stage)?)
}

fn has_content(stage: &Stage) -> bool
    ensures { IsTrue result → HasContent stage.now.kind stage.now.content }
{
    match (stage.kind, &stage.content) {
        (OpKind::Remove, None) => true,
        (OpKind::Insert | OpKind::Replace, Some(content)) => is_shallow(content),
        _ => false,
    }
}

fn is_shallow(content: &Json) -> bool
    ensures { IsTrue result → levels content.now ≤ 125 }
{
    content.tree().has_levels_within(MAX_LEVELS)
}
