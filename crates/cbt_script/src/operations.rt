//! The operations of a transaction.

ghost use Rattle.std.specs.Prelude.{◌≡◌};
ghost use Rattle.cbt_script.specs.Causes.{Gives};
ghost use Rattle.cbt_script.specs.Operations.{op_field, get_field, insert_field, replace_field, remove_field, need_field, expr_field, cond_field, line_fault_of};

use crate::cause::{Cause, LineFault};
use crate::fields::{end, fixed, id, name};
use crate::keywords::Operation;
use cbt_base::{Map, Text};
use cbt_expr::{Cond, Expr, Op};
use cbt_syntax::{SyntaxFault, read_cond, read_expr};
use std::alloc::Global;

/// An operation, over the names that the gets before it have bound.
pub(crate) fn operation(
    alloc: Global,
    which: Operation,
    bound: &Map<Text, ()>,
    rest: &str,
) -> Result<Op, LineFault>
    ensures { Gives (λ op. op) result (op_field which bound.now rest.now) }
{
    match which {
        Operation::Get => get(alloc, rest),
        Operation::Insert => insert(alloc, bound, rest),
        Operation::Replace => replace(alloc, bound, rest),
        Operation::Remove => remove(alloc, rest),
        Operation::Need => need(alloc, bound, rest),
    }
}

#[tactic(auto, unfolding(crate::specs::Operations::get_field))]
fn get(alloc: Global, rest: &str) -> Result<Op, LineFault>
    ensures { Gives (λ op. op) result (get_field rest.now) }
{
    let (doc, rest) = id(alloc, rest)?;
    let rest = fixed(rest, "as")?;
    let (name, rest) = name(rest)?;
    end(rest)?;
    let name = Text::from_str(alloc, name)?;
    Ok(Op::Get { doc, name })
}

#[tactic(auto, unfolding(crate::specs::Operations::insert_field))]
fn insert(alloc: Global, bound: &Map<Text, ()>, rest: &str) -> Result<Op, LineFault>
    ensures { Gives (λ op. op) result (insert_field bound.now rest.now) }
{
    let (doc, rest) = id(alloc, rest)?;
    let value = expression(alloc, bound, rest)?;
    Ok(Op::Insert { doc, value })
}

#[tactic(auto, unfolding(crate::specs::Operations::replace_field))]
fn replace(alloc: Global, bound: &Map<Text, ()>, rest: &str) -> Result<Op, LineFault>
    ensures { Gives (λ op. op) result (replace_field bound.now rest.now) }
{
    let (doc, rest) = id(alloc, rest)?;
    let value = expression(alloc, bound, rest)?;
    Ok(Op::Replace { doc, value })
}

#[tactic(auto, unfolding(crate::specs::Operations::remove_field))]
fn remove(alloc: Global, rest: &str) -> Result<Op, LineFault>
    ensures { Gives (λ op. op) result (remove_field rest.now) }
{
    let (doc, rest) = id(alloc, rest)?;
    end(rest)?;
    Ok(Op::Remove { doc })
}

#[tactic(auto, unfolding(crate::specs::Operations::need_field))]
fn need(alloc: Global, bound: &Map<Text, ()>, rest: &str) -> Result<Op, LineFault>
    ensures { Gives (λ op. op) result (need_field bound.now rest.now) }
{
    let cond = condition(alloc, bound, rest)?;
    Ok(Op::Need { cond })
}

// An expression: the rest of the line.
fn expression(alloc: Global, bound: &Map<Text, ()>, text: &str) -> Result<Expr, LineFault>
    ensures { Gives (λ e. e) result (expr_field bound.now text.now) }
{
    if text.len() == 0 {
        return Err(LineFault::Refused(Cause::Form));
    }
    match read_expr(alloc, text, bound) {
        Ok(value) => Ok(value),
        Err(fault) => Err(line_fault(fault)),
    }
}

// A condition: the rest of the line.
fn condition(alloc: Global, bound: &Map<Text, ()>, text: &str) -> Result<Cond, LineFault>
    ensures { Gives (λ c. c) result (cond_field bound.now text.now) }
{
    if text.len() == 0 {
        return Err(LineFault::Refused(Cause::Form));
    }
    match read_cond(alloc, text, bound) {
        Ok(cond) => Ok(cond),
        Err(fault) => Err(line_fault(fault)),
    }
}

fn line_fault(fault: SyntaxFault) -> LineFault
    ensures { result ≡ line_fault_of fault }
{
    match fault {
        SyntaxFault::NotWhole => LineFault::Refused(Cause::NotWhole),
        SyntaxFault::Malformed => LineFault::Refused(Cause::Expr),
        SyntaxFault::Unbound => LineFault::Refused(Cause::Unbound),
        SyntaxFault::NoMemory => LineFault::NoMemory,
    }
}
