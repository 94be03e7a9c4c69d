//! Expressions over what an account holds.

ghost use Rattle.std.specs.Prelude.{◌≡◌, ◌∷◌, [], IfOk, codes, pos};
ghost use Rattle.cbt_expr.specs.Literals.{alone};
ghost use Rattle.cbt_json.specs.declared.tree.Tree.TheVariants.{Whole};
ghost use Rattle.cbt_subdoc.specs.declared.path.Part.TheVariants.{Name};
ghost use Rattle.cbt_gen.specs.Transfers.{number_term, amount_in, changed, body_with};

use crate::values::json_of;
use cbt_base::{List, NoMemory, Text};
use cbt_expr::{Expr, Sign, Term};
use cbt_json::Tree;
use cbt_subdoc::{Part, Path};
use std::alloc::Global;

/// An expression of one term.
pub(crate) fn alone(alloc: Global, term: Term) -> Expr
    ensures { result ≡ alone term }
{
    Expr {
        first: term,
        rest: List::new(alloc),
    }
}

/// A whole number.
#[tactic(auto, using(crate::proofs::Bodies::number_json))]
pub(crate) fn number_term(n: u32) -> Term
    ensures { result ≡ number_term n }
{
    Term::Plain(json_of(Tree::Whole(i128::from(n))))
}

/// What the account holds that is bound to a name.
pub(crate) fn amount_in(alloc: Global, name: &str) -> Result<Term, NoMemory>
    ensures { IfOk result (λ term. term ≡ amount_in name.now) }
{
    let name = Text::from_str(alloc, name)?;
    let path = path_to_amount(alloc)?;
    Ok(Term::Ref {
        name,
        path: Some(path),
    })
}

fn path_to_amount(alloc: Global) -> Result<Path, NoMemory>
    ensures { IfOk result (λ path. path ≡ Name (codes "n") ∷ []) }
{
    let mut parts = List::new(alloc);
    parts.push(Part::Name(Text::from_str(alloc, "n")?))?;
    match Path::of(parts) {
        Some(path) => Ok(path),
        None => unreachable!(),
    }
}

/// What that account is to hold: so much more or less.
pub(crate) fn changed(alloc: Global, name: &str, sign: Sign, amount: u32) -> Result<Expr, NoMemory>
    ensures { IfOk result (λ expr. expr ≡ changed name.now sign amount) }
{
    let mut rest = List::new(alloc);
    rest.push((sign, number_term(amount)))?;
    let first = amount_in(alloc, name)?;
    Ok(Expr { first, rest })
}

/// A body that holds a value.
pub(crate) fn body_with(alloc: Global, amount: Expr) -> Result<Expr, NoMemory>
    ensures { IfOk result (λ expr. expr ≡ body_with amount) }
{
    let mut members = List::new(alloc);
    match Text::from_str(alloc, "n") {
        Ok(name) => members.push((name, amount))?,
        Err(refused) => {
            drop(amount);
            return Err(refused);
        }
    }
    Ok(alone(alloc, Term::Members(members)))
}
