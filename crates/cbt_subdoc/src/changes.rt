//! Changes of a document.
ghost use Rattle.std.specs.Prelude.{◌≡◌, ◌⊎◌, All, IsTrue, Ok, Err, IfOk, IfErr, OnOk, OnErr};
ghost use Rattle.cbt_json.specs.Rules.{IsJson};
ghost use Rattle.cbt_subdoc.specs.declared.changes.MutFault.TheVariants.{NoMemory as no_memory};
ghost use Rattle.cbt_subdoc.specs.Fits.{mut_fits};
ghost use Rattle.cbt_subdoc.specs.Edits.{Does};
ghost use Rattle.cbt_subdoc.specs.Along.{changed, fault_at, is_senseless, mutated};

use crate::along::{change_tree, leads_to_place};
use crate::edits::{Edit, Refusal, is_list_or_object};
use crate::path::{Part, Path};
use crate::values::tree_of_value;
use cbt_base::{Duplicate, NoMemory};
use cbt_json::{Json, Tree};
use std::alloc::Global;
use std::error::Error;
use std::fmt;

/// The most changes of a call.
const MAX_CHANGES: usize = 16;

/// The most levels of a document.
const MAX_LEVELS: u32 = 127;

/// What a change does at the end of its path.
#[derive(Clone, Copy, Debug, PartialEq, Eq)]
pub enum MutOp {
    /// Puts a member into an object that has none of its name.
    Add,
    /// Sets a member of an object.
    Upsert,
    /// Sets a value that is there.
    Replace,
    /// Takes a member or an item away; a list closes up.
    Delete,
    /// Puts an item at the front of a list.
    PushFirst,
    /// Puts an item at the end of a list.
    PushLast,
    /// Puts a scalar at the end of a list of scalars that does not hold it.
    AddUnique,
    /// Changes a whole number.
    Counter,
}

/// What a change puts into a document.
#[derive(Debug, Drop)]
pub enum MutValue {
    None,
    Json(Json),
    /// The text that stands for the CAS of the call.
    MacroCas,
    /// By how much a counter changes.
    Delta(i64),
}

/// A change at a path.
#[derive(Debug, Drop)]
pub struct Mut {
    pub op: MutOp,
    pub path: Path,
    pub value: MutValue,
    /// Whether objects are made for names that are missing on the way.
    pub parents: bool,
}

/// Why a call's changes cannot be made.
#[derive(Clone, Copy, Debug, PartialEq, Eq)]
pub enum MutFault {
    /// There are more than 16.
    TooManyPaths { n: u64 },
    /// The path of change `i`, counted from 0, does not reach what has to be there.
    PathNotFound { i: u64 },
    /// What may not be there is there.
    PathExists { i: u64 },
    /// A value is of another kind than the path or the operation asks.
    PathMismatch { i: u64 },
    /// A counter would leave the range from -2^63 to 2^63-1.
    CounterRange { i: u64 },
    /// The tree would have more than 127 levels.
    TooDeep { i: u64 },
    NoMemory,
}

/// Whether a change has the kind of value that its operation takes: Delete none, Counter a delta,
/// the others a JSON value or the macro.
pub fn mut_fits(change: &Mut) -> bool
    ensures { result ≡ mut_fits change.now }
{
    match change.op {
        MutOp::Delete => match change.value {
            MutValue::None => true,
            _ => false,
        },
        MutOp::Counter => match change.value {
            MutValue::Delta(_) => true,
            _ => false,
        },
        _ => match change.value {
            MutValue::Json(_) | MutValue::MacroCas => true,
            _ => false,
        },
    }
}

/// The tree of a JSON value after one change, at the CAS of its call. What is refused is gone with
/// the tree, so a caller that keeps it works on a copy.
pub fn apply_change(alloc: Global, tree: Tree, change: &Mut, cas: u64) -> Result<Tree, Refusal>
    requires { IsJson tree }
    ensures answer { Does result (changed cas change.now tree) }
    ensures rules { IfOk result IsJson }
{
    let path = change.path.parts();
    let value = tree_of_value(alloc, &change.value, cas)?;
    if is_senseless(change.op, path, &value) {
        return Err(Refusal::PathMismatch);
    }
    // A shallow value makes no tree too deep, and then the levels of the whole need not be counted.
    let is_shallow = value.has_levels_within(MAX_LEVELS - 1 - path.len() as u32);
    let edit = Edit {
        op: change.op,
        parents: change.parents,
        value,
    };
    let after = change_tree(alloc, tree, path, edit)?;
    if is_shallow {
        return Ok(after);
    }
    if !after.has_levels_within(MAX_LEVELS) {
        return Err(Refusal::TooDeep);
    }
    Ok(after)
}

// Whether a change is refused before its way is looked at.
fn is_senseless(op: MutOp, path: &[Part], value: &Tree) -> bool
    ensures { result ≡ is_senseless op path.now value.now }
{
    match op {
        MutOp::Add | MutOp::Upsert => leads_to_place(path),
        MutOp::AddUnique => is_list_or_object(value),
        _ => false,
    }
}

/// Makes a call's changes in order, each on what the ones before it made. A refused call leaves the
/// document as it was.
pub fn mutate(alloc: Global, tree: &mut Json, changes: &[Mut], cas: u64) -> Result<(), MutFault>
    requires { All (λ change. IsTrue (mut_fits change)) changes.now }
    ensures ok { OnOk result (mutated cas changes.now tree.old ≡ Ok tree.new) }
    ensures refused { IfErr result (λ fault. (mutated cas changes.now tree.old ≡ Err fault) ⊎ (fault ≡ MutFault.NoMemory)) }
    ensures unchanged { OnErr result (tree.new ≡ tree.old) }
{
    if changes.len() > MAX_CHANGES {
        return Err(MutFault::TooManyPaths {
            n: changes.len() as u64,
        });
    }
    let mut work = tree.tree().copy(alloc)?;
    for (i, change) in changes.iter().enumerate() {
        match apply_change(alloc, work, change, cas) {
            Ok(after) => work = after,
            Err(refusal) => return Err(refusal.at(i as u64)),
        }
    }
    *tree = Json::of(work).unwrap();
    Ok(())
}

impl Refusal {
    /// The fault of a call whose change at this place, from 0, is refused.
    pub fn at(self, i: u64) -> MutFault
        ensures { result ≡ fault_at i self }
    {
        match self {
            Refusal::PathNotFound => MutFault::PathNotFound { i },
            Refusal::PathExists => MutFault::PathExists { i },
            Refusal::PathMismatch => MutFault::PathMismatch { i },
            Refusal::CounterRange => MutFault::CounterRange { i },
            Refusal::TooDeep => MutFault::TooDeep { i },
            Refusal::NoMemory => MutFault::NoMemory,
        }
    }
}

impl From<NoMemory> for MutFault {
    ghost from_gives = { λ _ fault. fault ≡ no_memory };

    fn from(_refused: NoMemory) -> MutFault {
        MutFault::NoMemory
    }
}

impl fmt::Display for MutFault {
    fn fmt<W: fmt::Write>(&self, f: &mut fmt::Formatter<W>) -> fmt::Result {
        match self {
            MutFault::TooManyPaths { n } => write!(f, "a call has at most 16 paths, not {n}"),
            MutFault::PathNotFound { i } => write!(f, "change {i}: the path reaches nothing"),
            MutFault::PathExists { i } => write!(f, "change {i}: the value is there already"),
            MutFault::PathMismatch { i } => write!(f, "change {i}: a value is of another kind"),
            MutFault::CounterRange { i } => write!(f, "change {i}: the counter leaves its range"),
            MutFault::TooDeep { i } => write!(f, "change {i}: more than 127 levels"),
            MutFault::NoMemory => write!(f, "out of memory"),
        }
    }
}

impl Error for MutFault {}
