//! Look-ups in a document.
ghost use Rattle.std.specs.Prelude.{◌≡◌, ◌≤◌, length, map, IfOk};
ghost use Rattle.cbt_json.specs.declared.tree.Tree.{out-Tree};
ghost use Rattle.cbt_subdoc.specs.Reach.{look_answer, count_of, missed};

use crate::path::{Part, Path};
use crate::reaching::{Miss, reach};
use cbt_base::{Duplicate, List, NoMemory};
use cbt_json::{Json, Tree};
use std::alloc::Global;

/// A question about what a path reaches.
#[derive(Debug, Drop)]
pub enum Look {
    /// Whether it reaches a value.
    Exists(Path),
    /// Which value it reaches.
    Get(Path),
    /// How many items or members the value has that it reaches.
    Count(Path),
}

/// The answer to a look.
#[derive(Debug, Drop)]
pub enum LookAnswer {
    /// The path reaches a value.
    Yes,
    /// The value that it reaches.
    Found(Json),
    /// How many items or members the value has.
    Count(u64),
    /// An object on the way has no such member, or a list no such item.
    NotFound,
    /// A name leads on from no object, a place from no list, or a scalar was to be counted.
    Mismatch,
}

/// Answers each look into a document, in order.
pub fn lookup(alloc: Global, tree: &Json, looks: &[Look]) -> Result<List<LookAnswer>, NoMemory>
    requires { length looks.now ≤ 16 }
    ensures { IfOk result (λ answers. answers ≡ map (look_answer tree.now) looks.now) }
{
    let mut answers = List::new(alloc);
    for look in looks {
        answers.push(answer_to(alloc, tree, look)?)?;
    }
    Ok(answers)
}

fn answer_to(alloc: Global, tree: &Json, look: &Look) -> Result<LookAnswer, NoMemory>
    ensures { IfOk result (λ answer. answer ≡ look_answer tree.now look.now) }
{
    match look {
        Look::Exists(path) => match reach(tree.tree(), path.parts()) {
            Ok(_) => Ok(LookAnswer::Yes),
            Err(miss) => Ok(missed(miss)),
        },
        Look::Get(path) => match reach(tree.tree(), path.parts()) {
            Ok(value) => {
                let value = value.copy(alloc)?;
                Ok(LookAnswer::Found(Json::of(value).unwrap()))
            }
            Err(miss) => Ok(missed(miss)),
        },
        Look::Count(path) => match reach(tree.tree(), path.parts()) {
            Ok(value) => Ok(count(value)),
            Err(miss) => Ok(missed(miss)),
        },
    }
}

fn count(value: &Tree) -> LookAnswer
    ensures { result ≡ count_of (out-Tree value.now) }
{
    match value {
        Tree::List(items) => LookAnswer::Count(items.len() as u64),
        Tree::Object(members) => LookAnswer::Count(members.len() as u64),
        _ => LookAnswer::Mismatch,
    }
}

fn missed(miss: Miss) -> LookAnswer
    ensures { result ≡ missed miss }
{
    match miss {
        Miss::NotFound => LookAnswer::NotFound,
        Miss::Mismatch => LookAnswer::Mismatch,
    }
}
