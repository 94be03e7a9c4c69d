//! The first words of steps that have fields.

ghost use Rattle.std.specs.Prelude.{◌≡◌};
ghost use Rattle.cbt_history.specs.StepForms.{document_form, entry_form, record_form, form_of};

/// What a step is, by its first word.
#[derive(Clone, Copy, Debug, PartialEq, Eq)]
pub(crate) enum StepForm {
    ReadDoc,
    Stage,
    Publish,
    Delete,
    Unstick,
    ReadEntry,
    AddEntry,
    Commit,
    Abort,
    DropEntry,
    ReadAtr,
    Beat,
}

#[tactic(auto, unfolding(crate::specs::StepForms::form_of))]
pub(crate) fn step_form(word: &str) -> Option<StepForm>
    ensures { result ≡ form_of word.now }
{
    match document_form(word) {
        Some(form) => Some(form),
        None => match entry_form(word) {
            Some(form) => Some(form),
            None => record_form(word),
        },
    }
}

fn document_form(word: &str) -> Option<StepForm>
    ensures { result ≡ document_form word.now }
{
    match word {
        "read-doc" => Some(StepForm::ReadDoc),
        "stage" => Some(StepForm::Stage),
        "publish" => Some(StepForm::Publish),
        "delete" => Some(StepForm::Delete),
        "unstick" => Some(StepForm::Unstick),
        _ => None,
    }
}

fn entry_form(word: &str) -> Option<StepForm>
    ensures { result ≡ entry_form word.now }
{
    match word {
        "read-entry" => Some(StepForm::ReadEntry),
        "add-entry" => Some(StepForm::AddEntry),
        "commit" => Some(StepForm::Commit),
        "abort" => Some(StepForm::Abort),
        "drop-entry" => Some(StepForm::DropEntry),
        _ => None,
    }
}

fn record_form(word: &str) -> Option<StepForm>
    ensures { result ≡ record_form word.now }
{
    match word {
        "read-atr" => Some(StepForm::ReadAtr),
        "beat" => Some(StepForm::Beat),
        _ => None,
    }
}
