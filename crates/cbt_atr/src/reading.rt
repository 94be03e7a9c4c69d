//! JSON as entries.
ghost use Rattle.std.specs.Prelude.{◌≡◌};
ghost use Rattle.std.specs.Option.{option_copied};
ghost use Rattle.cbt_shape.specs.Fields.{field};
ghost use Rattle.cbt_shape.specs.Readings.{Reads};
ghost use Rattle.cbt_atr.specs.EntriesRead.{zero_form, are_fields, decided_lists, empty_lists, no_lists, formed_lists, lists_of, entry_of, entry_at, entries_in, entries_of};

use crate::documents::docs_field;
use crate::states::state_field;
use cbt_base::{Id, List, Text};
use cbt_json::{Json, Tree};
use cbt_model::{Entry, EntryState, Lists};
use cbt_shape::{
    Field, ShapeFault, absent, has_only, id_of_text, macro_field, member_at, members_of, txn_field,
    whole_field,
};
use std::alloc::Global;

/// The entries for which the value of an attribute `attempts` stands, by their attempts. The fields
/// of an entry are, counted from 1, `exp`, `ins`, `p`, `rem`, `rep`, `st`, `tid` and `tst`. Of several
/// bad entries the first decides.
pub fn read(alloc: Global, json: &Json) -> Result<List<(Id, Entry)>, ShapeFault>
    ensures { Reads (λ entries. entries) result (entries_of json.now) }
{
    entries_in(alloc, members_of(json.tree())?)
}

fn entries_in(alloc: Global, members: &[(Text, Tree)]) -> Result<List<(Id, Entry)>, ShapeFault>
    ensures { Reads (λ entries. entries) result (entries_in members.now) }
{
    let mut entries = List::new(alloc);
    for (name, tree) in members {
        entries.push(entry_at(alloc, name.as_str(), tree)?)?;
    }
    Ok(entries)
}

fn entry_at(alloc: Global, name: &str, tree: &Tree) -> Result<(Id, Entry), ShapeFault>
    ensures { Reads (λ entry. entry) result (entry_at (name.now, tree.now)) }
{
    let Some(id) = id_of_text(name) else {
        return Err(ShapeFault::Shape { at: 0 });
    };
    let entry = entry_of(alloc, id, members_of(tree)?)?;
    Ok((id, entry))
}

fn entry_of(alloc: Global, id: Id, fields: &[(Text, Tree)]) -> Result<Entry, ShapeFault>
    ensures { Reads (λ entry. entry) result (entry_of id fields.now) }
{
    if !are_fields(fields) {
        return Err(ShapeFault::Shape { at: 0 });
    }
    let exp = whole_field(member_at(fields, "exp")).wanted(1)?;
    let state = state_field(member_at(fields, "st"));
    let lists = lists_of(alloc, &state, fields)?;
    let state = state.wanted(6)?;
    txn_field(id, member_at(fields, "tid")).wanted(7)?;
    let start = macro_field(member_at(fields, "tst")).wanted(8)?;
    Ok(Entry {
        state,
        start,
        exp,
        lists,
    })
}

// Whether there are no names but those of the fields.
fn are_fields(fields: &[(Text, Tree)]) -> bool
    ensures { result ≡ are_fields fields.now }
{
    has_only(
        fields,
        &["exp", "ins", "p", "rem", "rep", "st", "tid", "tst"],
    )
}

// What the state says should be there of the fields of a decided entry.
fn lists_of(
    alloc: Global,
    state: &Field<EntryState>,
    fields: &[(Text, Tree)],
) -> Result<Lists, ShapeFault>
    ensures { Reads (λ lists. lists) result (lists_of state.now fields.now) }
{
    match state {
        Field::Good(EntryState::Pending) => no_lists(alloc, fields),
        Field::Good(EntryState::Committed | EntryState::Aborted) => decided_lists(alloc, fields),
        Field::Missing | Field::OtherForm => formed_lists(alloc, fields),
    }
}

fn decided_lists(alloc: Global, fields: &[(Text, Tree)]) -> Result<Lists, ShapeFault>
    ensures { Reads (λ lists. lists) result (decided_lists fields.now) }
{
    let ins = docs_field(alloc, member_at(fields, "ins"))?.wanted(2)?;
    zero_field(member_at(fields, "p")).wanted(3)?;
    let rem = docs_field(alloc, member_at(fields, "rem"))?.wanted(4)?;
    let rep = docs_field(alloc, member_at(fields, "rep"))?.wanted(5)?;
    Ok(Lists { ins, rep, rem })
}

fn no_lists(alloc: Global, fields: &[(Text, Tree)]) -> Result<Lists, ShapeFault>
    ensures { Reads (λ lists. lists) result (no_lists fields.now) }
{
    absent(member_at(fields, "ins"), 2)?;
    absent(member_at(fields, "p"), 3)?;
    absent(member_at(fields, "rem"), 4)?;
    absent(member_at(fields, "rep"), 5)?;
    Ok(empty_lists(alloc))
}

fn formed_lists(alloc: Global, fields: &[(Text, Tree)]) -> Result<Lists, ShapeFault>
    ensures { Reads (λ lists. lists) result (formed_lists fields.now) }
{
    docs_field(alloc, member_at(fields, "ins"))?.formed(2)?;
    zero_field(member_at(fields, "p")).formed(3)?;
    docs_field(alloc, member_at(fields, "rem"))?.formed(4)?;
    docs_field(alloc, member_at(fields, "rep"))?.formed(5)?;
    Ok(empty_lists(alloc))
}

fn empty_lists(alloc: Global) -> Lists
    ensures { result ≡ empty_lists }
{
    Lists {
        ins: List::new(alloc),
        rep: List::new(alloc),
        rem: List::new(alloc),
    }
}

// The number 0.
fn zero_field(there: Option<&Tree>) -> Field<()>
    ensures { result ≡ field zero_form (option_copied there.entry) }
{
    match whole_field(there) {
        Field::Missing => Field::Missing,
        Field::Good(0) => Field::Good(()),
        Field::Good(_) | Field::OtherForm => Field::OtherForm,
    }
}
