//! The names of accounts, their owners and clients, by their numbers.

ghost use Rattle.std.specs.Prelude.{◌≡◌, ◌<◌, ◌++◌, IfOk};
ghost use Rattle.cbt_gen.specs.Names.{two_digits, four_digits, account_id, owner_name, client_name};

use cbt_base::{DocId, NoMemory, Text};
use std::alloc::Global;

/// The document of an account.
pub(crate) fn account_id(alloc: Global, number: u32) -> Result<DocId, NoMemory>
    requires { number < 10000 }
    ensures { IfOk result (λ id. id ≡ account_id number) }
{
    let name = with_four_digits(alloc, "acc-", number)?;
    // Such a text has no fault as an identifier, so nothing but memory can be wanting.
    DocId::new(alloc, name.as_str()).map_err(|_fault| NoMemory)
}

/// The owner of an account.
pub(crate) fn owner_name(alloc: Global, number: u32) -> Result<Text, NoMemory>
    requires { number < 10000 }
    ensures { IfOk result (λ name. name ≡ owner_name number) }
{
    with_four_digits(alloc, "o", number)
}

/// The name of a client.
#[tactic(auto, using(crate::proofs::Padded::two_written))]
pub(crate) fn client_name(alloc: Global, number: u32) -> Result<Text, NoMemory>
    requires { number < 100 }
    ensures { IfOk result (λ name. name ≡ client_name number) }
{
    let name = format!(in alloc; "c{number:02}")?;
    Ok(Text::from_string(name))
}

fn with_four_digits(alloc: Global, prefix: &str, number: u32) -> Result<Text, NoMemory>
    requires { number < 10000 }
    ensures { IfOk result (λ text. text ≡ prefix.now ++ four_digits number) }
{
    let text = format!(in alloc; "{prefix}{number:04}")?;
    Ok(Text::from_string(text))
}
