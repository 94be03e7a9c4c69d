//! The accounts, which are documents with an amount.

ghost use Rattle.std.specs.Prelude.{◌≡◌, ◌<◌, ◌≤◌, IfOk, pos, codes};
ghost use Rattle.cbt_json.specs.declared.tree.Tree.TheVariants.{Whole};
ghost use Rattle.cbt_gen.specs.Accounts.{object_of, first_body, attributes_of, account, accounts_to};

use crate::names::{account_id, owner_name};
use crate::values::json_of;
use cbt_base::{DocId, List, NoMemory, Text};
use cbt_json::{Json, Tree};
use std::alloc::Global;

/// What each account holds before the run.
const FIRST_AMOUNT: i128 = 1000;

/// So many accounts, each with its body and its attributes.
pub(crate) fn account_docs(alloc: Global, count: u32) -> Result<List<(DocId, Json, Json)>, NoMemory>
    requires { count ≤ 1000 }
    ensures { IfOk result (λ docs. docs ≡ accounts_to count) }
{
    let mut docs = List::new(alloc);
    for before in 0..count {
        docs.push(account(alloc, before + 1)?)?;
    }
    Ok(docs)
}

fn account(alloc: Global, number: u32) -> Result<(DocId, Json, Json), NoMemory>
    requires { number < 10000 }
    ensures { IfOk result (λ doc. doc ≡ account number) }
{
    let id = account_id(alloc, number)?;
    let body = first_body(alloc)?;
    let attributes = attributes(alloc, number)?;
    Ok((id, body, attributes))
}

#[tactic(auto, using(crate::proofs::Bodies::first_body_json))]
fn first_body(alloc: Global) -> Result<Json, NoMemory>
    ensures { IfOk result (λ body. body ≡ first_body) }
{
    let body = object(alloc, "n", Tree::Whole(FIRST_AMOUNT))?;
    Ok(json_of(body))
}

#[tactic(auto, using(crate::proofs::Bodies::attributes_json))]
fn attributes(alloc: Global, number: u32) -> Result<Json, NoMemory>
    requires { number < 10000 }
    ensures { IfOk result (λ attributes. attributes ≡ attributes_of number) }
{
    let mut members = List::new(alloc);
    let kept = Text::from_str(alloc, "_kept")?;
    members.push((kept, object(alloc, "no", Tree::Whole(i128::from(number)))?))?;
    let owner = Text::from_str(alloc, "owner")?;
    members.push((owner, Tree::Text(owner_name(alloc, number)?)))?;
    Ok(json_of(Tree::Object(members)))
}

// An object of one member.
fn object(alloc: Global, name: &str, value: Tree) -> Result<Tree, NoMemory>
    ensures { IfOk result (λ tree. tree ≡ object_of name.now value) }
{
    let mut members = List::new(alloc);
    match Text::from_str(alloc, name) {
        Ok(name) => members.push((name, value))?,
        Err(refused) => {
            drop(value);
            return Err(refused);
        }
    }
    Ok(Tree::Object(members))
}
