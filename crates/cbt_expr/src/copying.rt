//! Copies of expressions and conditions.

ghost use Rattle.std.specs.Prelude.{◌≡◌, IfOk};

use crate::expressions::{Cond, Expr, Term};
use cbt_base::{Duplicate, List, NoMemory, Text};
use std::alloc::Global;

#[cycle(copy)]
fn copy_expr(alloc: Global, expr: &Expr) -> Result<Expr, NoMemory>
    ensures { IfOk result (λ second. second ≡ expr.now) }
{
    let mut rest = List::new(alloc);
    for (sign, term) in expr.rest.as_slice() {
        rest.push((*sign, copy_term(alloc, term)?))?;
    }
    let first = copy_term(alloc, &expr.first)?;
    Ok(Expr { first, rest })
}

#[cycle(copy)]
fn copy_term(alloc: Global, term: &Term) -> Result<Term, NoMemory>
    ensures { IfOk result (λ second. second ≡ term.now) }
{
    match term {
        Term::Plain(json) => Ok(Term::Plain(json.copy(alloc)?)),
        Term::Items(items) => Ok(Term::Items(copy_items(alloc, items.as_slice())?)),
        Term::Members(members) => Ok(Term::Members(copy_members(alloc, members.as_slice())?)),
        Term::Ref { name, path } => {
            let name = name.copy(alloc)?;
            let path = match path {
                Some(path) => Some(path.copy(alloc)?),
                None => None,
            };
            Ok(Term::Ref { name, path })
        }
    }
}

#[cycle(copy)]
fn copy_items(alloc: Global, items: &[Expr]) -> Result<List<Expr>, NoMemory>
    ensures { IfOk result (λ second. second ≡ items.now) }
{
    let mut second = List::new(alloc);
    for item in items {
        second.push(copy_expr(alloc, item)?)?;
    }
    Ok(second)
}

#[cycle(copy)]
fn copy_members(alloc: Global, members: &[(Text, Expr)]) -> Result<List<(Text, Expr)>, NoMemory>
    ensures { IfOk result (λ second. second ≡ members.now) }
{
    let mut second = List::new(alloc);
    for (name, expr) in members {
        let name = name.copy(alloc)?;
        second.push((name, copy_expr(alloc, expr)?))?;
    }
    Ok(second)
}

impl Duplicate for Expr {
    fn copy(&self, alloc: Global) -> Result<Expr, NoMemory> {
        copy_expr(alloc, self)
    }
}

impl Duplicate for Cond {
    fn copy(&self, alloc: Global) -> Result<Cond, NoMemory> {
        match self {
            Cond::Compare { left, cmp, right } => {
                let left = copy_expr(alloc, left)?;
                let right = copy_expr(alloc, right)?;
                Ok(Cond::Compare {
                    left,
                    cmp: *cmp,
                    right,
                })
            }
            Cond::Has { name } => Ok(Cond::Has {
                name: name.copy(alloc)?,
            }),
            Cond::Lacks { name } => Ok(Cond::Lacks {
                name: name.copy(alloc)?,
            }),
        }
    }
}
