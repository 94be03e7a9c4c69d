//! The words for how far an attempt has come.
ghost use Rattle.std.specs.Prelude.{◌≡◌};
ghost use Rattle.std.specs.Option.{option_copied};
ghost use Rattle.cbt_shape.specs.Fields.{field};
ghost use Rattle.cbt_atr.specs.Entries.{state_text};
ghost use Rattle.cbt_atr.specs.EntriesRead.{state_in, state_form};

use cbt_json::Tree;
use cbt_model::EntryState;
use cbt_shape::{Field, text_of};

pub(crate) fn state_text(state: EntryState) -> &'static str
    ensures { result.now ≡ state_text state }
{
    match state {
        EntryState::Pending => "PENDING",
        EntryState::Committed => "COMMITTED",
        EntryState::Aborted => "ABORTED",
    }
}

pub(crate) fn state_field(there: Option<&Tree>) -> Field<EntryState>
    ensures { result ≡ field state_form (option_copied there.entry) }
{
    match there {
        None => Field::Missing,
        Some(tree) => match text_of(tree) {
            Some(text) => Field::judged(state_in(text)),
            None => Field::OtherForm,
        },
    }
}

fn state_in(text: &str) -> Option<EntryState>
    ensures { result ≡ state_in text.now }
{
    match text {
        "PENDING" => Some(EntryState::Pending),
        "COMMITTED" => Some(EntryState::Committed),
        "ABORTED" => Some(EntryState::Aborted),
        _ => None,
    }
}
