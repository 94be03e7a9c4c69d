ghost use Rattle.std.specs.Prelude.{◌≡◌, true, Some, None, IfOk, IsErrOf, IsUtf8};
ghost use Rattle.std.specs.Option.{IsSomeAnd};
ghost use Rattle.serde_json.specs.View.{view, items_view, members_view};
ghost use Rattle.serde_json.specs.Written.{has_float, items_have_float, members_have_float};
ghost use Rattle.cbt_json.specs.Trees.{data_of, items_data, members_data};
ghost use Rattle.cbt_json.specs.Rules.{IsJson};
ghost use Rattle.cbt_json.specs.Reading.{reading};

use crate::fault::JsonFault;
use crate::tree::Tree;
use cbt_base::{List, Text};
use serde_json::{Map, Value};
use std::alloc::Global;

/// The tree of a text.
pub(crate) fn parse(alloc: Global, bytes: &[u8]) -> Result<Tree, JsonFault>
    ensures ok { IfOk result (λ tree. IsUtf8 bytes.now
        × (reading bytes.now ≡ Some (data_of tree))) }
    ensures keeps_rules { IfOk result IsJson }
    ensures not_json { IsErrOf result JsonFault.NotJson → IsUtf8 bytes.now
        → reading bytes.now ≡ None }
    ensures not_whole { IsErrOf result JsonFault.NotWhole → IsUtf8 bytes.now
        × IsSomeAnd (reading bytes.now) (λ d. has_float d ≡ true) }
{
    match Value::from_slice(alloc, bytes) {
        Ok(value) => tree_of_value(alloc, &value),
        Err(error) => if error.is_memory() {
            Err(JsonFault::NoMemory)
        } else {
            Err(JsonFault::NotJson)
        },
    }
}

/// The tree of what was read, whose numbers are whole.
#[cycle(reading)]
pub(crate) fn tree_of_value(alloc: Global, value: &Value) -> Result<Tree, JsonFault>
    ensures ok { IfOk result (λ tree. data_of tree ≡ view value.now) }
    ensures not_json { ¬ IsErrOf result JsonFault.NotJson }
    ensures not_whole { IsErrOf result JsonFault.NotWhole → has_float (view value.now) ≡ true }
{
    match value {
        Value::Null => Ok(Tree::Null),
        Value::Bool(b) => Ok(Tree::Bool(*b)),
        Value::Number(n) => match n.as_i128() {
            Some(n) => Ok(Tree::Whole(n)),
            None => Err(JsonFault::NotWhole),
        },
        Value::String(text) => Ok(Tree::Text(Text::from_str(alloc, text.as_str())?)),
        Value::Array(items) => Ok(Tree::List(items_of_values(alloc, items)?)),
        Value::Object(members) => Ok(Tree::Object(members_of_map(alloc, members)?)),
    }
}

#[cycle(reading)]
fn items_of_values(alloc: Global, values: &Vec<Value>) -> Result<List<Tree>, JsonFault>
    ensures ok { IfOk result (λ items. items_data items ≡ items_view values.now.items) }
    ensures not_json { ¬ IsErrOf result JsonFault.NotJson }
    ensures not_whole { IsErrOf result JsonFault.NotWhole
        → items_have_float (items_view values.now.items) ≡ true }
{
    let mut items = Vec::with_capacity(alloc, values.len())?;
    for value in values {
        items.push(tree_of_value(alloc, value)?)?;
    }
    Ok(List::from_vec(items))
}

#[cycle(reading)]
fn members_of_map(alloc: Global, map: &Map<String, Value>) -> Result<List<(Text, Tree)>, JsonFault>
    ensures ok { IfOk result (λ members. members_data members ≡ members_view map.now.entries) }
    ensures not_json { ¬ IsErrOf result JsonFault.NotJson }
    ensures not_whole { IsErrOf result JsonFault.NotWhole
        → members_have_float (members_view map.now.entries) ≡ true }
{
    let mut members = Vec::with_capacity(alloc, map.len())?;
    for (name, value) in map.iter() {
        let name = Text::from_str(alloc, name.as_str())?;
        members.push((name, tree_of_value(alloc, value)?))?;
    }
    Ok(List::from_vec(members))
}
