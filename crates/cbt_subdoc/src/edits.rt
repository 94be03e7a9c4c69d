//! What a change makes of a slot: the place at the end of its path, which holds a value or none.
ghost use Rattle.std.specs.Prelude.{◌≡◌};
ghost use Rattle.cbt_json.specs.Same.{tree_eq};
ghost use Rattle.cbt_subdoc.specs.declared.edits.Refusal.TheVariants.{NoMemory as no_memory};
ghost use Rattle.cbt_subdoc.specs.Edits.{Does, edited, list_in, with_item, counted, is_container, has_container, has_item, in_counter_range};

use crate::changes::MutOp;
use cbt_base::{List, NoMemory};
use cbt_json::Tree;
use std::alloc::Global;
use std::error::Error;
use std::fmt;

/// Why a change cannot be made.
#[derive(Clone, Copy, Debug, PartialEq, Eq)]
pub enum Refusal {
    /// The path does not reach what has to be there.
    PathNotFound,
    /// What may not be there is there.
    PathExists,
    /// A value is of another kind than the path or the operation asks.
    PathMismatch,
    /// The counter would leave the range from -2^63 to 2^63-1.
    CounterRange,
    /// The tree would have more than 127 levels.
    TooDeep,
    NoMemory,
}

impl fmt::Display for Refusal {
    fn fmt<W: fmt::Write>(&self, f: &mut fmt::Formatter<W>) -> fmt::Result {
        f.write_str(match self {
            Refusal::PathNotFound => "the path reaches nothing",
            Refusal::PathExists => "the value is there already",
            Refusal::PathMismatch => "a value on the path is of another kind",
            Refusal::CounterRange => "the counter leaves its range",
            Refusal::TooDeep => "the document would have more than 127 levels",
            Refusal::NoMemory => "out of memory",
        })
    }
}

impl Error for Refusal {}

impl From<NoMemory> for Refusal {
    ghost from_gives = { λ _ why. why ≡ no_memory };

    fn from(_refused: NoMemory) -> Refusal {
        Refusal::NoMemory
    }
}

/// An operation with its value, as it is carried to the end of its path.
#[derive(Drop)]
pub(crate) struct Edit {
    pub(crate) op: MutOp,
    pub(crate) parents: bool,
    pub(crate) value: Tree,
}

/// The slot after an edit.
pub(crate) fn edit_slot(
    alloc: Global,
    edit: Edit,
    slot: Option<Tree>,
) -> Result<Option<Tree>, Refusal>
    ensures { Does result (edited edit slot) }
{
    let Edit { op, parents, value } = edit;
    match op {
        MutOp::Add => match slot {
            None => Ok(Some(value)),
            Some(_) => Err(Refusal::PathExists),
        },
        MutOp::Upsert => Ok(Some(value)),
        MutOp::Replace => match slot {
            None => Err(Refusal::PathNotFound),
            Some(_) => Ok(Some(value)),
        },
        MutOp::Delete => match slot {
            None => Err(Refusal::PathNotFound),
            Some(_) => Ok(None),
        },
        MutOp::Counter => match slot {
            None => Ok(Some(value)),
            Some(number) => Ok(Some(sum_of(number, value)?)),
        },
        MutOp::PushFirst | MutOp::PushLast | MutOp::AddUnique => {
            let items = items_of(alloc, parents, slot)?;
            Ok(Some(Tree::List(put_item(op, items, value)?)))
        }
    }
}

// The items of the list in a slot, or of a new one.
fn items_of(alloc: Global, parents: bool, slot: Option<Tree>) -> Result<List<Tree>, Refusal>
    ensures { Does result (list_in parents slot) }
{
    match slot {
        None if parents => Ok(List::new(alloc)),
        None => Err(Refusal::PathNotFound),
        Some(Tree::List(items)) => Ok(items),
        Some(_) => Err(Refusal::PathMismatch),
    }
}

// A list with a further item.
fn put_item(op: MutOp, mut items: List<Tree>, value: Tree) -> Result<List<Tree>, Refusal>
    ensures { Does result (with_item op items value) }
{
    match op {
        MutOp::PushFirst => items.insert(0, value)?,
        MutOp::AddUnique if holds_container(items.as_slice()) => {
            return Err(Refusal::PathMismatch);
        }
        MutOp::AddUnique if holds(items.as_slice(), &value) => return Err(Refusal::PathExists),
        _ => items.push(value)?,
    }
    Ok(items)
}

/// Whether a value is a list or an object.
pub(crate) fn is_list_or_object(tree: &Tree) -> bool
    ensures { result ≡ is_container tree.now }
{
    match tree {
        Tree::List(_) | Tree::Object(_) => true,
        _ => false,
    }
}

fn holds_container(items: &[Tree]) -> bool
    ensures { result ≡ has_container items.now }
{
    items.iter().any(|item| is_list_or_object(item))
}

fn holds(items: &[Tree], value: &Tree) -> bool
    ensures { result ≡ has_item value.now items.now }
{
    items.iter().any(|item| are_same(item, value))
}

fn are_same(item: &Tree, value: &Tree) -> bool
    ensures { result ≡ tree_eq item.now value.now }
{
    item.same(value)
}

// A number that is there, changed by another.
fn sum_of(number: Tree, change: Tree) -> Result<Tree, Refusal>
    ensures { Does result (counted number change) }
{
    let Tree::Whole(n) = number else {
        return Err(Refusal::PathMismatch);
    };
    let delta = match change {
        Tree::Whole(delta) => delta,
        _ => 0,
    };
    match n.checked_add(delta) {
        Some(sum) if is_in_counter_range(sum) => Ok(Tree::Whole(sum)),
        _ => Err(Refusal::CounterRange),
    }
}

fn is_in_counter_range(n: i128) -> bool
    ensures { result ≡ in_counter_range n }
{
    i64::MIN as i128 <= n && n <= i64::MAX as i128
}
