//! The value of an expression, and whether a condition holds.
ghost use Rattle.std.specs.Prelude.{◌≡◌, ◌⊎◌, Err};
ghost use Rattle.cbt_expr.specs.Answers.{bound_in, answer_of};
ghost use Rattle.cbt_expr.specs.Values.{value_of, truth_of};
ghost use Rattle.cbt_expr.specs.declared.values.EvalFault.TheVariants.{NoMemory as no_memory};

use crate::evaluation::{is_bound, next_part, whole_value};
use crate::expressions::{Cond, Expr};
use crate::operators::compared;
use cbt_base::{Map, NoMemory, Text};
use cbt_json::Json;
use std::alloc::Global;
use std::error::Error;
use std::fmt;

/// Why an expression has no value.
#[derive(Clone, Copy, Debug, PartialEq, Eq)]
pub enum EvalFault {
    /// The first reference or operator without a value, by its number from 1 in the order of the
    /// text; 0 where all have one but the whole is no fit body.
    BadValue { part: u32 },
    /// Memory ran out, or there are more parts than a `u32` counts.
    NoMemory,
}

impl fmt::Display for EvalFault {
    fn fmt<W: fmt::Write>(&self, f: &mut fmt::Formatter<W>) -> fmt::Result {
        match self {
            EvalFault::BadValue { part } => write!(f, "part {part} has no value"),
            EvalFault::NoMemory => write!(f, "out of memory"),
        }
    }
}

impl Error for EvalFault {}

impl From<NoMemory> for EvalFault {
    ghost from_gives = { λ _ fault. fault ≡ no_memory };

    fn from(_refused: NoMemory) -> EvalFault {
        EvalFault::NoMemory
    }
}

/// The value of an expression over what gets have bound to names. A name that is not there counts as
/// bound to none.
pub fn eval(alloc: Global, value: &Expr, bound: &Map<Text, Option<Json>>) -> Result<Json, EvalFault>
    ensures answer { (result ≡ answer_of (value_of (bound_in bound.now) value.now)) ⊎ (result ≡ Err EvalFault.NoMemory) }
{
    let mut passed = 0;
    whole_value(alloc, value, bound, &mut passed)
}

/// Whether a condition holds over what gets have bound to names.
pub fn holds(alloc: Global, cond: &Cond, bound: &Map<Text, Option<Json>>) -> Result<bool, EvalFault>
    ensures answer { (result ≡ answer_of (truth_of (bound_in bound.now) cond.now)) ⊎ (result ≡ Err EvalFault.NoMemory) }
{
    match cond {
        Cond::Compare { left, cmp, right } => {
            let mut passed = 0;
            let left = whole_value(alloc, left, bound, &mut passed)?;
            let operator = next_part(&mut passed)?;
            let right = whole_value(alloc, right, bound, &mut passed)?;
            match compared(*cmp, left.tree(), right.tree()) {
                Some(truth) => Ok(truth),
                None => Err(EvalFault::BadValue { part: operator }),
            }
        }
        Cond::Has { name } => Ok(is_bound(name, bound)),
        Cond::Lacks { name } => Ok(!is_bound(name, bound)),
    }
}
