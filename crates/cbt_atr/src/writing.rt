//! Entries as JSON.
ghost use Rattle.std.specs.Prelude.{◌≡◌, ◌++◌, ◌^◌, ◌<◌, pos, IfOk, OnOk, map, true};
ghost use Rattle.cbt_base.specs.Ids.{id_text};
ghost use Rattle.cbt_json.specs.declared.tree.Tree.TheVariants as json;
ghost use Rattle.cbt_model.specs.Fitting.{ids_rise};
ghost use Rattle.cbt_shape.specs.Levels.{IsSound};
ghost use Rattle.cbt_atr.specs.Entries.{decided_fields, state_fields, last_fields, entry_fields, written_entry, written};

use crate::documents::docs_tree;
use crate::states::state_text;
use cbt_base::{Id, List, NoMemory, Text};
use cbt_json::{Json, Tree};
use cbt_model::{Entry, EntryState, Lists};
use cbt_shape::put;
use cbt_subdoc::macro_text;
use std::alloc::Global;

/// The value of the attribute `attempts` that stands for the entries of a record, by their attempts,
/// which rise.
pub fn write(alloc: Global, entries: &List<(Id, Entry)>) -> Result<Json, NoMemory>
    requires { ids_rise entries.now ≡ true }
    ensures { IfOk result (λ json. json ≡ written entries.now) }
{
    let members = members_of(alloc, entries.as_slice())?;
    Ok(Json::of(Tree::Object(members)).unwrap())
}

fn members_of(alloc: Global, entries: &[(Id, Entry)]) -> Result<List<(Text, Tree)>, NoMemory>
    requires { ids_rise entries.now ≡ true }
    ensures value { IfOk result (λ members. members ≡ map written_entry entries.now) }
    ensures rules { IfOk result (λ members. IsSound 4 (json.Object members)) }
{
    let mut members = List::new(alloc);
    for (id, entry) in entries {
        let name = name_of(alloc, *id)?;
        let entry = entry_tree(alloc, *id, entry)?;
        members.push((name, entry))?;
    }
    Ok(members)
}

fn name_of(alloc: Global, id: Id) -> Result<Text, NoMemory>
    ensures name { IfOk result (λ name. name ≡ id_text id) }
    ensures fits { id < 2 ^ 128 }
{
    // Names rise only as far as identifiers have 128 bits, which their number tells.
    let _number = id.number();
    id.text(alloc)
}

fn entry_tree(alloc: Global, id: Id, entry: &Entry) -> Result<Tree, NoMemory>
    ensures value { IfOk result (λ tree. tree ≡ json.Object (entry_fields id entry.now)) }
    ensures rules { IfOk result (IsSound 3) }
{
    let mut fields = List::new(alloc);
    put(alloc, &mut fields, "exp", whole_tree(entry.exp))?;
    put_lists(alloc, &mut fields, entry.state, &entry.lists)?;
    put_last(alloc, &mut fields, id, entry)?;
    Ok(Tree::Object(fields))
}

fn whole_tree(n: u64) -> Tree
    ensures value { result ≡ json.Whole (pos n) }
    ensures fits { n < 2 ^ 64 }
{
    Tree::Whole(i128::from(n))
}

fn put_lists(
    alloc: Global,
    fields: &mut List<(Text, Tree)>,
    state: EntryState,
    lists: &Lists,
) -> Result<(), NoMemory>
    ensures { OnOk result (fields.new ≡ fields.old ++ state_fields state lists.now) }
{
    match state {
        EntryState::Pending => Ok(()),
        EntryState::Committed | EntryState::Aborted => put_decided(alloc, fields, lists),
    }
}

// What an entry has once it is decided.
fn put_decided(
    alloc: Global,
    fields: &mut List<(Text, Tree)>,
    lists: &Lists,
) -> Result<(), NoMemory>
    ensures { OnOk result (fields.new ≡ fields.old ++ decided_fields lists.now) }
{
    put(
        alloc,
        fields,
        "ins",
        docs_tree(alloc, lists.ins.as_slice())?,
    )?;
    put(alloc, fields, "p", Tree::Whole(0))?;
    put(
        alloc,
        fields,
        "rem",
        docs_tree(alloc, lists.rem.as_slice())?,
    )?;
    put(
        alloc,
        fields,
        "rep",
        docs_tree(alloc, lists.rep.as_slice())?,
    )
}

fn put_last(
    alloc: Global,
    fields: &mut List<(Text, Tree)>,
    id: Id,
    entry: &Entry,
) -> Result<(), NoMemory>
    ensures { OnOk result (fields.new ≡ fields.old ++ last_fields id entry.now) }
{
    let state = Text::from_str(alloc, state_text(entry.state))?;
    put(alloc, fields, "st", Tree::Text(state))?;
    put(
        alloc,
        fields,
        "tid",
        Tree::Text(Id::txn_of(id).text(alloc)?),
    )?;
    put(
        alloc,
        fields,
        "tst",
        Tree::Text(macro_text(alloc, entry.start)?),
    )
}
