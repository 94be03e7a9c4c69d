//! The forms of replies, and which of them may stand behind a step.

ghost use Rattle.std.specs.Prelude.{◌≡◌};
ghost use Rattle.cbt_history.specs.RepliesRead.{form_with_field, form_alone, is_state, is_field, with_field, reply_form, answers_read_doc, answers_stage, answers_unstage, answers_read_entry, answers_add_entry, answers_decide, answers_read_atr, answers_read_clients, answers_beat, may_answer, answers};

use crate::fields::word;
use cbt_lex::number;
use cbt_model::Step;

/// What a reply is, by its first word.
#[derive(Clone, Copy, Debug, PartialEq, Eq)]
pub(crate) enum ReplyForm {
    Doc,
    Absent,
    Done,
    CasMismatch,
    Exists,
    Entry,
    NoEntry,
    Decided,
    Entries,
    Clients,
    Failed,
}

/// Whether a text is a reply that may stand behind a step.
pub(crate) fn answers(step: &Step, text: &str) -> bool
    ensures { result ≡ answers step.now text.now }
{
    match reply_form(text) {
        Some(form) => may_answer(step, form),
        None => false,
    }
}

// The form of the reply that a text is.
fn reply_form(text: &str) -> Option<ReplyForm>
    ensures { result ≡ reply_form text.now }
{
    match word(text) {
        Ok((first, rest)) => with_field(form_with_field(first), rest),
        Err(_) => form_alone(text),
    }
}

// A form with this field.
fn with_field(form: Option<ReplyForm>, word: &str) -> Option<ReplyForm>
    ensures { result ≡ with_field form word.now }
{
    match form {
        Some(form) if is_field(form, word) => Some(form),
        _ => None,
    }
}

// The field of an entry is its state, and else a number.
fn is_field(form: ReplyForm, word: &str) -> bool
    ensures { result ≡ is_field form word.now }
{
    match form {
        ReplyForm::Entry => is_state(word),
        _ => number(word).is_some(),
    }
}

fn is_state(word: &str) -> bool
    ensures { result ≡ is_state word.now }
{
    word == "PENDING" || word == "COMMITTED" || word == "ABORTED"
}

// Replies that have a field.
fn form_with_field(word: &str) -> Option<ReplyForm>
    ensures { result ≡ form_with_field word.now }
{
    match word {
        "doc" => Some(ReplyForm::Doc),
        "done" => Some(ReplyForm::Done),
        "cas-mismatch" => Some(ReplyForm::CasMismatch),
        "entry" => Some(ReplyForm::Entry),
        "entries" => Some(ReplyForm::Entries),
        "clients" => Some(ReplyForm::Clients),
        _ => None,
    }
}

// Replies that are one word.
fn form_alone(word: &str) -> Option<ReplyForm>
    ensures { result ≡ form_alone word.now }
{
    match word {
        "absent" => Some(ReplyForm::Absent),
        "exists" => Some(ReplyForm::Exists),
        "no-entry" => Some(ReplyForm::NoEntry),
        "decided" => Some(ReplyForm::Decided),
        "failed" => Some(ReplyForm::Failed),
        _ => None,
    }
}

fn may_answer(step: &Step, form: ReplyForm) -> bool
    ensures { result ≡ may_answer step.now form }
{
    match step {
        Step::ReadDoc { .. } => answers_read_doc(form),
        Step::Stage { .. } => answers_stage(form),
        Step::Publish { .. } | Step::Delete { .. } | Step::Unstick { .. } => answers_unstage(form),
        Step::ReadEntry { .. } => answers_read_entry(form),
        Step::AddEntry { .. } => answers_add_entry(form),
        Step::Commit { .. } | Step::Abort { .. } | Step::DropEntry { .. } => answers_decide(form),
        Step::ReadAtr { .. } => answers_read_atr(form),
        Step::ReadClients => answers_read_clients(form),
        Step::Beat { .. } => answers_beat(form),
    }
}

fn answers_read_doc(form: ReplyForm) -> bool
    ensures { result ≡ answers_read_doc form }
{
    matches!(form, ReplyForm::Doc | ReplyForm::Absent | ReplyForm::Failed)
}

fn answers_stage(form: ReplyForm) -> bool
    ensures { result ≡ answers_stage form }
{
    matches!(
        form,
        ReplyForm::Done
            | ReplyForm::CasMismatch
            | ReplyForm::Exists
            | ReplyForm::Absent
            | ReplyForm::Failed
    )
}

// A publication, a deletion and an unstick.
fn answers_unstage(form: ReplyForm) -> bool
    ensures { result ≡ answers_unstage form }
{
    matches!(
        form,
        ReplyForm::Done | ReplyForm::CasMismatch | ReplyForm::Failed
    )
}

fn answers_read_entry(form: ReplyForm) -> bool
    ensures { result ≡ answers_read_entry form }
{
    matches!(
        form,
        ReplyForm::Entry | ReplyForm::NoEntry | ReplyForm::Failed
    )
}

fn answers_add_entry(form: ReplyForm) -> bool
    ensures { result ≡ answers_add_entry form }
{
    matches!(
        form,
        ReplyForm::Done | ReplyForm::Exists | ReplyForm::Failed
    )
}

// A commit, an abort and a drop.
fn answers_decide(form: ReplyForm) -> bool
    ensures { result ≡ answers_decide form }
{
    matches!(
        form,
        ReplyForm::Done | ReplyForm::NoEntry | ReplyForm::Decided | ReplyForm::Failed
    )
}

fn answers_read_atr(form: ReplyForm) -> bool
    ensures { result ≡ answers_read_atr form }
{
    matches!(form, ReplyForm::Entries | ReplyForm::Failed)
}

fn answers_read_clients(form: ReplyForm) -> bool
    ensures { result ≡ answers_read_clients form }
{
    matches!(form, ReplyForm::Clients | ReplyForm::Failed)
}

fn answers_beat(form: ReplyForm) -> bool
    ensures { result ≡ answers_beat form }
{
    matches!(form, ReplyForm::Done | ReplyForm::Failed)
}
