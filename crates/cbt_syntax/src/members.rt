//! The members of an object by their names.
ghost use Rattle.std.specs.Prelude.{◌≡◌, IfOk};
ghost use Rattle.cbt_syntax.specs.Named.{by_name, names_rise};

use cbt_base::{List, NoMemory, Text};
use cbt_expr::Expr;
use std::alloc::Global;
use std::collections::BTreeMap;

/// Members by their names, which rise; of equal names the last counts.
pub(crate) fn by_name(
    alloc: Global,
    members: List<(Text, Expr)>,
) -> Result<List<(Text, Expr)>, NoMemory>
    ensures { IfOk result (λ list. list ≡ by_name members) }
{
    if names_rise(members.as_slice()) {
        return Ok(members);
    }
    let mut map = BTreeMap::new(alloc);
    for (name, value) in members.into_vec() {
        map.insert(name, value)?;
    }
    in_order(alloc, map)
}

fn names_rise(members: &[(Text, Expr)]) -> bool
    ensures { result ≡ names_rise members.now }
{
    let Some(((first, _), rest)) = members.split_first() else {
        return true;
    };
    let mut last = first;
    for (name, _) in rest {
        if last >= name {
            return false;
        }
        last = name;
    }
    true
}

// The members that a map holds.
fn in_order(alloc: Global, members: BTreeMap<Text, Expr>) -> Result<List<(Text, Expr)>, NoMemory>
    ensures { IfOk result (λ list. list ≡ members.entries) }
{
    let mut list = List::new(alloc);
    for member in members {
        list.push(member)?;
    }
    Ok(list)
}
