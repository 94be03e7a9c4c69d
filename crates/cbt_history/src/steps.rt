//! Steps as text.

ghost use Rattle.std.specs.Prelude.{◌≡◌, ◌++◌, OnOk, codes, decimal};
ghost use Rattle.cbt_base.specs.Ids.{id_text};
ghost use Rattle.cbt_json.specs.Trees.{text_of};
ghost use Rattle.cbt_history.specs.NameLists.{lists_text, ids_text};
ghost use Rattle.cbt_history.specs.Steps.{expect_word, kind_word, content_text, stage_text, guard_word, at_cas, of_entry, step_text};

use crate::name_lists::{push_ids, push_lists};
use cbt_base::{DocId, Id, NoMemory, Text};
use cbt_json::Json;
use cbt_lex::push_number;
use cbt_model::{Expect, Lists, OpKind, Stage, Step};
use std::alloc::Global;

/// Puts a step at the end.
pub(crate) fn push_step(alloc: Global, out: &mut Text, step: &Step) -> Result<(), NoMemory>
    ensures { OnOk result (out.new ≡ out.old ++ step_text step.now) }
{
    match step {
        Step::ReadDoc { doc } => push_doc(out, "read-doc ", doc),
        Step::Stage { doc, expect, stage } => push_staging(alloc, out, doc, *expect, stage),
        Step::Publish { doc, cas, body } => push_publication(alloc, out, doc, *cas, body),
        Step::Delete { doc, cas } => push_at_cas(out, "delete ", doc, *cas),
        Step::Unstick { doc, cas } => push_at_cas(out, "unstick ", doc, *cas),
        Step::ReadEntry { atr, attempt } => push_entry(alloc, out, "read-entry ", *atr, *attempt),
        Step::AddEntry { atr, attempt, exp } => push_addition(alloc, out, *atr, *attempt, *exp),
        Step::Commit {
            atr,
            attempt,
            lists,
        } => push_decision(alloc, out, "commit ", *atr, *attempt, lists),
        Step::Abort {
            atr,
            attempt,
            lists,
        } => push_decision(alloc, out, "abort ", *atr, *attempt, lists),
        Step::DropEntry {
            atr,
            attempt,
            guarded,
        } => push_drop(alloc, out, *atr, *attempt, *guarded),
        Step::ReadAtr { atr } => push_counted(out, "read-atr ", u64::from(*atr)),
        Step::ReadClients => out.push_str("read-clients"),
        Step::Beat {
            me,
            expires,
            num_atrs,
            gone,
        } => push_beat(alloc, out, *me, *expires, *num_atrs, gone.as_slice()),
    }
}

// A word and a document.
fn push_doc(out: &mut Text, word: &str, doc: &DocId) -> Result<(), NoMemory>
    ensures { OnOk result (out.new ≡ out.old ++ (word.now ++ doc.now)) }
{
    out.push_str(word)?;
    out.push_str(doc.as_str())
}

// A word and a number.
fn push_counted(out: &mut Text, word: &str, n: u64) -> Result<(), NoMemory>
    ensures { OnOk result (out.new ≡ out.old ++ (word.now ++ decimal n)) }
{
    out.push_str(word)?;
    push_number(out, n)
}

// A word and an identifier.
fn push_id(alloc: Global, out: &mut Text, word: &str, id: Id) -> Result<(), NoMemory>
    ensures { OnOk result (out.new ≡ out.old ++ (word.now ++ id_text id)) }
{
    let text = id.text(alloc)?;
    out.push_str(word)?;
    out.push_str(text.as_str())
}

// A word and a document at a stamp.
fn push_at_cas(out: &mut Text, word: &str, doc: &DocId, cas: u64) -> Result<(), NoMemory>
    ensures { OnOk result (out.new ≡ out.old ++ at_cas word.now doc.now cas) }
{
    push_doc(out, word, doc)?;
    push_counted(out, " ", cas)
}

// A word and an attempt's entry.
fn push_entry(
    alloc: Global,
    out: &mut Text,
    word: &str,
    atr: u16,
    attempt: Id,
) -> Result<(), NoMemory>
    ensures { OnOk result (out.new ≡ out.old ++ of_entry word.now atr attempt) }
{
    push_counted(out, word, u64::from(atr))?;
    push_id(alloc, out, " ", attempt)
}

fn push_staging(
    alloc: Global,
    out: &mut Text,
    doc: &DocId,
    expect: Expect,
    stage: &Stage,
) -> Result<(), NoMemory>
    ensures { OnOk result (out.new ≡ out.old ++ (codes "stage " ++ doc.now ++ codes " " ++ expect_word expect ++ codes " " ++ stage_text stage.now)) }
{
    push_doc(out, "stage ", doc)?;
    push_expect(out, expect)?;
    push_stage(alloc, out, stage)
}

// A space and what a staging expects.
fn push_expect(out: &mut Text, expect: Expect) -> Result<(), NoMemory>
    ensures { OnOk result (out.new ≡ out.old ++ (codes " " ++ expect_word expect)) }
{
    match expect {
        Expect::New => out.push_str(" new"),
        Expect::Cas(cas) => push_counted(out, " ", cas),
    }
}

// A space and a write.
fn push_stage(alloc: Global, out: &mut Text, stage: &Stage) -> Result<(), NoMemory>
    ensures { OnOk result (out.new ≡ out.old ++ (codes " " ++ stage_text stage.now)) }
{
    push_id(alloc, out, " ", stage.attempt)?;
    push_counted(out, " ", u64::from(stage.atr))?;
    push_word(out, kind_word(stage.kind))?;
    push_content(alloc, out, &stage.content)
}

fn kind_word(kind: OpKind) -> &'static str
    ensures { result.now ≡ kind_word kind }
{
    match kind {
        OpKind::Insert => "insert",
        OpKind::Replace => "replace",
        OpKind::Remove => "remove",
    }
}

// A space and a word.
fn push_word(out: &mut Text, word: &str) -> Result<(), NoMemory>
    ensures { OnOk result (out.new ≡ out.old ++ (codes " " ++ word.now)) }
{
    out.push_str(" ")?;
    out.push_str(word)
}

// A space and a content.
fn push_content(alloc: Global, out: &mut Text, content: &Option<Json>) -> Result<(), NoMemory>
    ensures { OnOk result (out.new ≡ out.old ++ (codes " " ++ content_text content.now)) }
{
    match content {
        Some(content) => push_json(alloc, out, content),
        None => out.push_str(" -"),
    }
}

// A space and a JSON.
fn push_json(alloc: Global, out: &mut Text, json: &Json) -> Result<(), NoMemory>
    ensures { OnOk result (out.new ≡ out.old ++ (codes " " ++ text_of json.now)) }
{
    let text = json.text(alloc)?;
    push_word(out, text.as_str())
}

fn push_publication(
    alloc: Global,
    out: &mut Text,
    doc: &DocId,
    cas: u64,
    body: &Json,
) -> Result<(), NoMemory>
    ensures { OnOk result (out.new ≡ out.old ++ (at_cas (codes "publish ") doc.now cas ++ codes " " ++ text_of body.now)) }
{
    push_at_cas(out, "publish ", doc, cas)?;
    push_json(alloc, out, body)
}

fn push_addition(
    alloc: Global,
    out: &mut Text,
    atr: u16,
    attempt: Id,
    exp: u64,
) -> Result<(), NoMemory>
    ensures { OnOk result (out.new ≡ out.old ++ (of_entry (codes "add-entry ") atr attempt ++ codes " " ++ decimal exp)) }
{
    push_entry(alloc, out, "add-entry ", atr, attempt)?;
    push_counted(out, " ", exp)
}

// A commit or an abort.
fn push_decision(
    alloc: Global,
    out: &mut Text,
    word: &str,
    atr: u16,
    attempt: Id,
    lists: &Lists,
) -> Result<(), NoMemory>
    ensures { OnOk result (out.new ≡ out.old ++ (of_entry word.now atr attempt ++ codes " " ++ lists_text lists.now)) }
{
    push_entry(alloc, out, word, atr, attempt)?;
    out.push_str(" ")?;
    push_lists(alloc, out, lists)
}

fn push_drop(
    alloc: Global,
    out: &mut Text,
    atr: u16,
    attempt: Id,
    guarded: bool,
) -> Result<(), NoMemory>
    ensures { OnOk result (out.new ≡ out.old ++ (of_entry (codes "drop-entry ") atr attempt ++ codes " " ++ guard_word guarded)) }
{
    push_entry(alloc, out, "drop-entry ", atr, attempt)?;
    push_guard(out, guarded)
}

// A space and how a drop goes.
fn push_guard(out: &mut Text, guarded: bool) -> Result<(), NoMemory>
    ensures { OnOk result (out.new ≡ out.old ++ (codes " " ++ guard_word guarded)) }
{
    if guarded {
        out.push_str(" guarded")
    } else {
        out.push_str(" plain")
    }
}

fn push_beat(
    alloc: Global,
    out: &mut Text,
    me: Id,
    expires: u64,
    num_atrs: u16,
    gone: &[Id],
) -> Result<(), NoMemory>
    ensures { OnOk result (out.new ≡ out.old ++ (codes "beat " ++ id_text me ++ codes " " ++ decimal expires ++ codes " " ++ decimal num_atrs ++ codes " " ++ ids_text gone.now)) }
{
    push_id(alloc, out, "beat ", me)?;
    push_counted(out, " ", expires)?;
    push_counted(out, " ", u64::from(num_atrs))?;
    out.push_str(" ")?;
    push_ids(alloc, out, gone)
}
