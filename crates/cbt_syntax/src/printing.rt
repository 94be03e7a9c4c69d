//! The canonical texts of expressions and conditions.
ghost use Rattle.std.specs.Prelude.{◌≡◌, ◌++◌, false, OnOk};
ghost use Rattle.cbt_expr.specs.Forms.{term_form, items_form, members_form};
ghost use Rattle.cbt_syntax.specs.Texts.{string_text, sign_text, cmp_text, comma, term_text, items_text, members_text, expr_text, cond_text};

use crate::paths::push_path;
use crate::scalars::json_of;
use cbt_base::{Duplicate, NoMemory, Text};
use cbt_expr::{Cmp, Cond, Expr, Sign, Term};
use cbt_json::Tree;
use std::alloc::Global;

/// Puts the canonical text of an expression at the end of a text.
#[cycle(printing)]
pub fn push_expr(alloc: Global, out: &mut Text, expr: &Expr) -> Result<(), NoMemory>
    ensures { OnOk result (out.new ≡ out.old ++ expr_text expr.now) }
{
    push_term(alloc, out, &expr.first)?;
    for (sign, term) in expr.rest.as_slice() {
        out.push_str(sign_text(*sign))?;
        push_term(alloc, out, term)?;
    }
    Ok(())
}

#[cycle(printing)]
fn push_term(alloc: Global, out: &mut Text, term: &Term) -> Result<(), NoMemory>
    ensures { OnOk result (out.new ≡ out.old ++ term_text (term_form term.now)) }
{
    match term {
        Term::Plain(json) => {
            let text = json.text(alloc)?;
            out.push_str(text.as_str())
        }
        Term::Items(items) => {
            out.push_str("[")?;
            push_items(alloc, out, items.as_slice())
        }
        Term::Members(members) => {
            out.push_str("{")?;
            push_members(alloc, out, members.as_slice())
        }
        Term::Ref { name, path } => {
            out.push_str("@")?;
            out.push_str(name.as_str())?;
            match path {
                Some(path) => push_path(out, path.parts()),
                None => Ok(()),
            }
        }
    }
}

// Items and the closing bracket.
#[cycle(printing)]
fn push_items(alloc: Global, out: &mut Text, items: &[Expr]) -> Result<(), NoMemory>
    ensures { OnOk result (out.new ≡ out.old ++ items_text false (items_form items.now)) }
{
    for (at, item) in items.iter().enumerate() {
        push_comma(out, at > 0)?;
        push_expr(alloc, out, item)?;
    }
    out.push_str("]")
}

// Members and the closing bracket.
#[cycle(printing)]
fn push_members(alloc: Global, out: &mut Text, members: &[(Text, Expr)]) -> Result<(), NoMemory>
    ensures { OnOk result (out.new ≡ out.old ++ members_text false (members_form members.now)) }
{
    for (at, (name, expr)) in members.iter().enumerate() {
        push_comma(out, at > 0)?;
        push_string(alloc, out, name)?;
        out.push_str(":")?;
        push_expr(alloc, out, expr)?;
    }
    out.push_str("}")
}

// A comma, if items stand before.
fn push_comma(out: &mut Text, more: bool) -> Result<(), NoMemory>
    ensures { OnOk result (out.new ≡ out.old ++ comma more) }
{
    out.push_str(if more { "," } else { "" })
}

// A JSON string.
fn push_string(alloc: Global, out: &mut Text, string: &Text) -> Result<(), NoMemory>
    ensures { OnOk result (out.new ≡ out.old ++ string_text string.now) }
{
    let json = json_of(Tree::Text(string.copy(alloc)?));
    let text = json.text(alloc)?;
    out.push_str(text.as_str())
}

fn sign_text(sign: Sign) -> &'static str
    ensures { result.now ≡ sign_text sign }
{
    match sign {
        Sign::Plus => "+",
        Sign::Minus => "-",
    }
}

fn cmp_text(cmp: Cmp) -> &'static str
    ensures { result.now ≡ cmp_text cmp }
{
    match cmp {
        Cmp::Eq => "==",
        Cmp::Ne => "!=",
        Cmp::Lt => "<",
        Cmp::Le => "<=",
        Cmp::Gt => ">",
        Cmp::Ge => ">=",
    }
}

/// Puts the canonical text of a condition at the end of a text.
pub fn push_cond(alloc: Global, out: &mut Text, cond: &Cond) -> Result<(), NoMemory>
    ensures { OnOk result (out.new ≡ out.old ++ cond_text cond.now) }
{
    match cond {
        Cond::Compare { left, cmp, right } => {
            push_expr(alloc, out, left)?;
            out.push_str(cmp_text(*cmp))?;
            push_expr(alloc, out, right)
        }
        Cond::Has { name } => {
            out.push_str("some ")?;
            out.push_str(name.as_str())
        }
        Cond::Lacks { name } => {
            out.push_str("none ")?;
            out.push_str(name.as_str())
        }
    }
}
