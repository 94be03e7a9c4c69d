//! The forms of fields.
ghost use Rattle.std.specs.Prelude.{◌≡◌};
ghost use Rattle.std.specs.Option.{option_copied};
ghost use Rattle.cbt_shape.specs.Fields.{field};
ghost use Rattle.cbt_shape.specs.Forms.{id_form, txn_form, atr_form, whole_form, macro_form};

use crate::fields::Field;
use crate::names::{atr_of_name, id_of_text, is_txn_text};
use crate::numbers::{number_of_macro, whole_of};
use crate::objects::text_of;
use cbt_base::Id;
use cbt_json::Tree;

/// An identifier.
pub fn id_field(there: Option<&Tree>) -> Field<Id>
    ensures { result ≡ field id_form (option_copied there.entry) }
{
    match there {
        None => Field::Missing,
        Some(tree) => match text_of(tree) {
            Some(text) => Field::judged(id_of_text(text)),
            None => Field::OtherForm,
        },
    }
}

/// The transaction of an attempt.
pub fn txn_field(attempt: Id, there: Option<&Tree>) -> Field<()>
    ensures { result ≡ field (txn_form attempt) (option_copied there.entry) }
{
    match there {
        None => Field::Missing,
        Some(tree) => match text_of(tree) {
            Some(text) if is_txn_text(attempt, text) => Field::Good(()),
            _ => Field::OtherForm,
        },
    }
}

/// The name of a transaction record.
pub fn atr_field(there: Option<&Tree>) -> Field<u16>
    ensures { result ≡ field atr_form (option_copied there.entry) }
{
    match there {
        None => Field::Missing,
        Some(tree) => match text_of(tree) {
            Some(name) => Field::judged(atr_of_name(name)),
            None => Field::OtherForm,
        },
    }
}

/// A whole number from 0 to 2^64-1.
pub fn whole_field(there: Option<&Tree>) -> Field<u64>
    ensures { result ≡ field whole_form (option_copied there.entry) }
{
    match there {
        None => Field::Missing,
        Some(tree) => Field::judged(whole_of(tree)),
    }
}

/// A stamp in the form of the server's macro.
pub fn macro_field(there: Option<&Tree>) -> Field<u64>
    ensures { result ≡ field macro_form (option_copied there.entry) }
{
    match there {
        None => Field::Missing,
        Some(tree) => match text_of(tree) {
            Some(text) => Field::judged(number_of_macro(text)),
            None => Field::OtherForm,
        },
    }
}
