//! Expressions over what gets have bound, and conditions.

use cbt_base::{List, Text};
use cbt_json::Json;
use cbt_subdoc::Path;

/// An expression: a term, and further ones that are added or taken off from the left.
#[derive(Drop)]
#[cycle(expr)]
pub struct Expr {
    pub first: Term,
    pub rest: List<(Sign, Term)>,
}

/// How a term joins those before it.
#[derive(Clone, Copy, Debug, PartialEq, Eq)]
pub enum Sign {
    Plus,
    Minus,
}

/// What an expression adds up.
#[derive(Drop)]
#[cycle(expr)]
pub enum Term {
    /// A text, a whole number, a truth value or null.
    Plain(Json),
    Items(List<Expr>),
    /// Names, which rise by bytes, with their expressions.
    Members(List<(Text, Expr)>),
    /// What a path reaches in what a get has bound to a name; without a path all of it.
    Ref { name: Text, path: Option<Path> },
}

/// How two values are compared.
#[derive(Clone, Copy, Debug, PartialEq, Eq)]
pub enum Cmp {
    Eq,
    Ne,
    Lt,
    Le,
    Gt,
    Ge,
}

/// What a need asks for.
#[derive(Drop)]
pub enum Cond {
    Compare { left: Expr, cmp: Cmp, right: Expr },
    /// A document was there at the get of this name, written `some`.
    Has { name: Text },
    /// No document was there, written `none`.
    Lacks { name: Text },
}
