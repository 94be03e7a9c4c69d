//! The texts of identifiers and the names of transaction records.
ghost use Rattle.std.specs.Prelude.{◌≡◌, IfOk};
ghost use Rattle.std.specs.Option.{option_copied};
ghost use Rattle.cbt_shape.specs.Names.{behind, id_in, is_txn_text, atr_name, atr_in};

use cbt_base::{Id, NoMemory, Text};
use cbt_lex::{number, push_number};
use std::alloc::Global;

/// The identifier that has this text.
pub fn id_of_text(text: &str) -> Option<Id>
    ensures { result ≡ id_in text.now }
{
    Id::read(text)
}

/// Whether a text is that of an attempt's transaction.
pub(crate) fn is_txn_text(attempt: Id, text: &str) -> bool
    ensures { result ≡ is_txn_text attempt text.now }
{
    match id_of_text(text) {
        Some(id) => id.number() == Id::txn_of(attempt).number(),
        None => false,
    }
}

/// The name of the document that is the transaction record with this number.
pub fn atr_name(alloc: Global, n: u16) -> Result<Text, NoMemory>
    ensures { IfOk result (λ name. name ≡ atr_name n) }
{
    let mut name = Text::from_str(alloc, "_txn:atr-")?;
    push_number(&mut name, u64::from(n))?;
    Ok(name)
}

/// The number of the transaction record that has this name.
pub(crate) fn atr_of_name(name: &str) -> Option<u16>
    ensures { result ≡ atr_in name.now }
{
    let n = number(behind(name, "_txn:atr-")?)?;
    if n <= u64::from(u16::MAX) {
        Some(n as u16)
    } else {
        None
    }
}

// What stands behind a piece at the front of a text, where it is there.
fn behind<'a>(text: &'a str, piece: &str) -> Option<&'a str>
    ensures { option_copied result ≡ behind piece.now text.now }
{
    text.strip_prefix(piece)
}
