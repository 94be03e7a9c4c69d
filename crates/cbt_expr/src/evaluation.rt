//! The evaluation of expressions, from the left, with the parts passed so far counted.
ghost use Rattle.std.specs.Prelude.{◌≡◌, ◌+◌, IfOk, OnOk};
ghost use Rattle.std.specs.Result.{result_ok};
ghost use Rattle.cbt_subdoc.specs.Reach.{reached};
ghost use Rattle.cbt_expr.specs.Answers.{Answers, bound_in};
ghost use Rattle.cbt_expr.specs.Forms.{form_of, term_form, items_form, members_form, parts, term_parts, items_parts, members_parts};
ghost use Rattle.cbt_expr.specs.Values.{is_there, items_valued, members_valued, referred, term_valued, value_behind, valued};

use crate::expressions::{Expr, Term};
use crate::operators::added;
use crate::values::EvalFault;
use cbt_base::{Duplicate, List, Map, NoMemory, Text};
use cbt_json::{Json, Tree};
use cbt_subdoc::{Look, LookAnswer, Path, lookup};
use std::alloc::Global;

/// What gets have bound to names.
type Bound = Map<Text, Option<Json>>;

/// The value of a whole expression, which has to be a fit body.
pub(crate) fn whole_value(
    alloc: Global,
    expr: &Expr,
    bound: &Bound,
    passed: &mut u32,
) -> Result<Json, EvalFault>
    ensures value { Answers result (value_behind (bound_in bound.now) passed.old expr.now) }
    ensures passed { OnOk result (passed.new ≡ passed.old + parts (form_of expr.now)) }
{
    let value = value_of(alloc, expr, bound, passed)?;
    match Json::of(value) {
        Some(json) if json.body_fits() => Ok(json),
        _ => Err(EvalFault::BadValue { part: 0 }),
    }
}

/// The number of the part that comes next. Memory does not hold more parts than it counts.
pub(crate) fn next_part(passed: &mut u32) -> Result<u32, NoMemory>
    ensures { IfOk result (λ number. (number ≡ passed.old + 1) × (passed.new ≡ number)) }
{
    match passed.checked_add(1) {
        Some(number) => {
            *passed = number;
            Ok(number)
        }
        None => Err(NoMemory),
    }
}

#[cycle(evaluation)]
fn value_of(alloc: Global, expr: &Expr, bound: &Bound, passed: &mut u32) -> Result<Tree, EvalFault>
    ensures value { Answers result (valued (bound_in bound.now) passed.old (form_of expr.now)) }
    ensures passed { OnOk result (passed.new ≡ passed.old + parts (form_of expr.now)) }
{
    let mut sum = term_value(alloc, &expr.first, bound, passed)?;
    for (sign, term) in expr.rest.as_slice() {
        let operator = next_part(passed)?;
        let right = term_value(alloc, term, bound, passed)?;
        match added(*sign, &sum, &right) {
            Some(more) => sum = more,
            None => return Err(EvalFault::BadValue { part: operator }),
        }
    }
    Ok(sum)
}

#[cycle(evaluation)]
fn term_value(
    alloc: Global,
    term: &Term,
    bound: &Bound,
    passed: &mut u32,
) -> Result<Tree, EvalFault>
    ensures value { Answers result (term_valued (bound_in bound.now) passed.old (term_form term.now)) }
    ensures passed { OnOk result (passed.new ≡ passed.old + term_parts (term_form term.now)) }
{
    match term {
        Term::Plain(json) => Ok(json.tree().copy(alloc)?),
        Term::Items(items) => Ok(Tree::List(item_values(alloc, items.as_slice(), bound, passed)?)),
        Term::Members(members) => Ok(Tree::Object(member_values(
            alloc,
            members.as_slice(),
            bound,
            passed,
        )?)),
        Term::Ref { name, path } => {
            let number = next_part(passed)?;
            match referred(alloc, name, path, bound)? {
                Some(value) => Ok(value),
                None => Err(EvalFault::BadValue { part: number }),
            }
        }
    }
}

#[cycle(evaluation)]
fn item_values(
    alloc: Global,
    items: &[Expr],
    bound: &Bound,
    passed: &mut u32,
) -> Result<List<Tree>, EvalFault>
    ensures value { Answers result (items_valued (bound_in bound.now) passed.old (items_form items.now)) }
    ensures passed { OnOk result (passed.new ≡ passed.old + items_parts (items_form items.now)) }
{
    let mut values = List::new(alloc);
    for item in items {
        values.push(value_of(alloc, item, bound, passed)?)?;
    }
    Ok(values)
}

#[cycle(evaluation)]
fn member_values(
    alloc: Global,
    members: &[(Text, Expr)],
    bound: &Bound,
    passed: &mut u32,
) -> Result<List<(Text, Tree)>, EvalFault>
    ensures value { Answers result (members_valued (bound_in bound.now) passed.old (members_form members.now)) }
    ensures passed { OnOk result (passed.new ≡ passed.old + members_parts (members_form members.now)) }
{
    let mut values = List::new(alloc);
    for (name, expr) in members {
        let value = value_of(alloc, expr, bound, passed)?;
        values.push((name.copy(alloc)?, value))?;
    }
    Ok(values)
}

/// Whether a name is bound to a document that was there.
pub(crate) fn is_bound(name: &Text, bound: &Bound) -> bool
    ensures { result ≡ is_there (bound_in bound.now name.now) }
{
    match bound.get(name) {
        Some(Some(_)) => true,
        _ => false,
    }
}

/// What a reference reaches.
fn referred(
    alloc: Global,
    name: &Text,
    path: &Option<Path>,
    bound: &Bound,
) -> Result<Option<Tree>, NoMemory>
    ensures { IfOk result (λ value. value ≡ referred (bound_in bound.now) name.now path.now) }
{
    let Some(Some(answer)) = bound.get(name) else {
        return Ok(None);
    };
    match path {
        Some(path) => reached(alloc, answer, path),
        None => Ok(Some(answer.tree().copy(alloc)?)),
    }
}

fn reached(alloc: Global, answer: &Json, path: &Path) -> Result<Option<Tree>, NoMemory>
    ensures { IfOk result (λ value. value ≡ result_ok (reached path.now answer.now)) }
{
    let look = Look::Get(path.copy(alloc)?);
    let mut answers = lookup(alloc, answer, &[look])?;
    match answers.pop() {
        Some(LookAnswer::Found(value)) => Ok(Some(value.into_tree())),
        _ => Ok(None),
    }
}
