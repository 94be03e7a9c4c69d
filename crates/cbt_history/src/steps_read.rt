//! The step that a text is.

ghost use Rattle.std.specs.Prelude.{◌≡◌, None};
ghost use Rattle.cbt_history.specs.Readings.{Finds, Gives};
ghost use Rattle.cbt_history.specs.StepsRead.{read_doc_in, at_cas_in, publish_in, delete_in, unstick_in, expect_in, kind_in, content_in, stage_in, staging_in, entry_in, entry_field, read_entry_in, add_entry_in, commit_in, abort_in, guard_in, drop_entry_in, read_atr_in, beat_in, fields_in, by_word, step_in};

use crate::faults::{BadField, LineFault};
use crate::fields::{body_at, doc, doc_at, id, id_at, number, number_within, word};
use crate::names_read::{gone_at, lists_at};
use crate::step_forms::{StepForm, step_form};
use cbt_base::{DocId, Id};
use cbt_json::Json;
use cbt_model::{Expect, OpKind, Stage, Step};
use std::alloc::Global;

/// Reads a step.
pub(crate) fn step_at(alloc: Global, text: &str) -> Result<Step, LineFault>
    ensures { Gives (λ step. step) result (step_in text.now) }
{
    match word(text) {
        Ok((first, rest)) => match step_form(first) {
            Some(form) => read_fields(alloc, form, rest),
            None => Err(LineFault::Refused),
        },
        Err(_) => read_lone(text),
    }
}

// The step that has no fields.
fn read_lone(text: &str) -> Result<Step, LineFault>
    ensures { Gives (λ step. step) result (by_word None text.now) }
{
    if text == "read-clients" {
        Ok(Step::ReadClients)
    } else {
        Err(LineFault::Refused)
    }
}

// The step of a form with these fields.
fn read_fields(alloc: Global, form: StepForm, text: &str) -> Result<Step, LineFault>
    ensures { Gives (λ step. step) result (fields_in form text.now) }
{
    match form {
        StepForm::ReadDoc => read_read_doc(alloc, text),
        StepForm::Stage => read_staging(alloc, text),
        StepForm::Publish => read_publish(alloc, text),
        StepForm::Delete => read_delete(alloc, text),
        StepForm::Unstick => read_unstick(alloc, text),
        StepForm::ReadEntry => Ok(read_read_entry(text)?),
        StepForm::AddEntry => Ok(read_add_entry(text)?),
        StepForm::Commit => read_commit(alloc, text),
        StepForm::Abort => read_abort(alloc, text),
        StepForm::DropEntry => Ok(read_drop_entry(text)?),
        StepForm::ReadAtr => Ok(read_read_atr(text)?),
        StepForm::Beat => read_beat(alloc, text),
    }
}

#[tactic(auto, unfolding(crate::specs::StepsRead::read_doc_in))]
fn read_read_doc(alloc: Global, text: &str) -> Result<Step, LineFault>
    ensures { Gives (λ step. step) result (read_doc_in text.now) }
{
    let doc = doc_at(alloc, text)?;
    Ok(Step::ReadDoc { doc })
}

// A document at a stamp.
#[tactic(auto, unfolding(crate::specs::StepsRead::at_cas_in))]
fn at_cas(alloc: Global, text: &str) -> Result<(DocId, u64), LineFault>
    ensures { Gives (λ x. x) result (at_cas_in text.now) }
{
    let (doc, rest) = doc(alloc, text)?;
    let cas = number_within(rest, u64::MAX)?;
    Ok((doc, cas))
}

#[tactic(auto, unfolding(crate::specs::StepsRead::publish_in))]
fn read_publish(alloc: Global, text: &str) -> Result<Step, LineFault>
    ensures { Gives (λ step. step) result (publish_in text.now) }
{
    let (doc, rest) = doc(alloc, text)?;
    let (cas, rest) = number(rest, u64::MAX)?;
    let body = body_at(alloc, rest)?;
    Ok(Step::Publish { doc, cas, body })
}

#[tactic(auto, unfolding(crate::specs::StepsRead::delete_in))]
fn read_delete(alloc: Global, text: &str) -> Result<Step, LineFault>
    ensures { Gives (λ step. step) result (delete_in text.now) }
{
    let (doc, cas) = at_cas(alloc, text)?;
    Ok(Step::Delete { doc, cas })
}

#[tactic(auto, unfolding(crate::specs::StepsRead::unstick_in))]
fn read_unstick(alloc: Global, text: &str) -> Result<Step, LineFault>
    ensures { Gives (λ step. step) result (unstick_in text.now) }
{
    let (doc, cas) = at_cas(alloc, text)?;
    Ok(Step::Unstick { doc, cas })
}

#[tactic(auto, unfolding(crate::specs::StepsRead::staging_in))]
fn read_staging(alloc: Global, text: &str) -> Result<Step, LineFault>
    ensures { Gives (λ step. step) result (staging_in text.now) }
{
    let (doc, rest) = doc(alloc, text)?;
    let (word, rest) = word(rest)?;
    let expect = expect_at(word)?;
    let stage = stage_at(alloc, rest)?;
    Ok(Step::Stage { doc, expect, stage })
}

fn expect_at(word: &str) -> Result<Expect, BadField>
    ensures { Finds (λ expect. expect) result (expect_in word.now) }
{
    if word == "new" {
        return Ok(Expect::New);
    }
    match number_within(word, u64::MAX) {
        Ok(cas) => Ok(Expect::Cas(cas)),
        Err(bad) => Err(bad),
    }
}

#[tactic(auto, unfolding(crate::specs::StepsRead::stage_in))]
fn stage_at(alloc: Global, text: &str) -> Result<Stage, LineFault>
    ensures { Gives (λ stage. stage) result (stage_in text.now) }
{
    let Ok((attempt, rest)) = id(text) else {
        return Err(LineFault::Refused);
    };
    let (atr, rest) = number(rest, u64::from(u16::MAX))?;
    let (word, rest) = word(rest)?;
    let kind = kind_at(word)?;
    let content = content_at(alloc, kind, rest)?;
    Ok(Stage {
        attempt,
        atr: atr as u16,
        kind,
        content,
    })
}

fn kind_at(word: &str) -> Result<OpKind, BadField>
    ensures { Finds (λ kind. kind) result (kind_in word.now) }
{
    match word {
        "insert" => Ok(OpKind::Insert),
        "replace" => Ok(OpKind::Replace),
        "remove" => Ok(OpKind::Remove),
        _ => Err(BadField),
    }
}

// What a document is to hold: a hyphen exactly for a remove.
fn content_at(alloc: Global, kind: OpKind, text: &str) -> Result<Option<Json>, LineFault>
    ensures { Gives (λ content. content) result (content_in kind text.now) }
{
    match kind {
        OpKind::Insert | OpKind::Replace => match body_at(alloc, text) {
            Ok(body) => Ok(Some(body)),
            Err(fault) => Err(fault),
        },
        OpKind::Remove => if text == "-" {
            Ok(None)
        } else {
            Err(LineFault::Refused)
        },
    }
}

// An attempt's entry in a transaction record.
#[tactic(auto, unfolding(crate::specs::StepsRead::entry_in))]
fn entry_at(text: &str) -> Result<(u16, Id), BadField>
    ensures { Finds (λ x. x) result (entry_in text.now) }
{
    let (atr, rest) = number(text, u64::from(u16::MAX))?;
    let attempt = id_at(rest)?;
    Ok((atr as u16, attempt))
}

// The same before the next space.
#[tactic(auto, unfolding(crate::specs::StepsRead::entry_field))]
fn entry(text: &str) -> Result<(u16, Id, &str), BadField>
    ensures { Finds (λ x. (x.0, x.1, x.2.now)) result (entry_field text.now) }
{
    let (atr, rest) = number(text, u64::from(u16::MAX))?;
    let Ok((attempt, rest)) = id(rest) else {
        return Err(BadField);
    };
    Ok((atr as u16, attempt, rest))
}

#[tactic(auto, unfolding(crate::specs::StepsRead::read_entry_in))]
fn read_read_entry(text: &str) -> Result<Step, BadField>
    ensures { Finds (λ step. step) result (read_entry_in text.now) }
{
    let (atr, attempt) = entry_at(text)?;
    Ok(Step::ReadEntry { atr, attempt })
}

#[tactic(auto, unfolding(crate::specs::StepsRead::add_entry_in))]
fn read_add_entry(text: &str) -> Result<Step, BadField>
    ensures { Finds (λ step. step) result (add_entry_in text.now) }
{
    let Ok((atr, attempt, rest)) = entry(text) else {
        return Err(BadField);
    };
    let exp = number_within(rest, u64::MAX)?;
    Ok(Step::AddEntry { atr, attempt, exp })
}

#[tactic(auto, unfolding(crate::specs::StepsRead::commit_in))]
fn read_commit(alloc: Global, text: &str) -> Result<Step, LineFault>
    ensures { Gives (λ step. step) result (commit_in text.now) }
{
    let Ok((atr, attempt, rest)) = entry(text) else {
        return Err(LineFault::Refused);
    };
    let lists = lists_at(alloc, rest)?;
    Ok(Step::Commit {
        atr,
        attempt,
        lists,
    })
}

#[tactic(auto, unfolding(crate::specs::StepsRead::abort_in))]
fn read_abort(alloc: Global, text: &str) -> Result<Step, LineFault>
    ensures { Gives (λ step. step) result (abort_in text.now) }
{
    let Ok((atr, attempt, rest)) = entry(text) else {
        return Err(LineFault::Refused);
    };
    let lists = lists_at(alloc, rest)?;
    Ok(Step::Abort {
        atr,
        attempt,
        lists,
    })
}

#[tactic(auto, unfolding(crate::specs::StepsRead::drop_entry_in))]
fn read_drop_entry(text: &str) -> Result<Step, BadField>
    ensures { Finds (λ step. step) result (drop_entry_in text.now) }
{
    let Ok((atr, attempt, rest)) = entry(text) else {
        return Err(BadField);
    };
    let guarded = guard_at(rest)?;
    Ok(Step::DropEntry {
        atr,
        attempt,
        guarded,
    })
}

fn guard_at(word: &str) -> Result<bool, BadField>
    ensures { Finds (λ guarded. guarded) result (guard_in word.now) }
{
    match word {
        "guarded" => Ok(true),
        "plain" => Ok(false),
        _ => Err(BadField),
    }
}

#[tactic(auto, unfolding(crate::specs::StepsRead::read_atr_in))]
fn read_read_atr(text: &str) -> Result<Step, BadField>
    ensures { Finds (λ step. step) result (read_atr_in text.now) }
{
    let atr = number_within(text, u64::from(u16::MAX))?;
    Ok(Step::ReadAtr { atr: atr as u16 })
}

#[tactic(auto, unfolding(crate::specs::StepsRead::beat_in))]
fn read_beat(alloc: Global, text: &str) -> Result<Step, LineFault>
    ensures { Gives (λ step. step) result (beat_in text.now) }
{
    let Ok((me, rest)) = id(text) else {
        return Err(LineFault::Refused);
    };
    let (expires, rest) = number(rest, u64::MAX)?;
    let (num_atrs, rest) = number(rest, u64::from(u16::MAX))?;
    let gone = gone_at(alloc, rest)?;
    Ok(Step::Beat {
        me,
        expires,
        num_atrs: num_atrs as u16,
        gone,
    })
}
