//! The operations of a transaction and the plans of clients, as a script states them, with the
//! values of their expressions.
#![tactic(auto)]

mod copying;
mod evaluation;
mod expressions;
mod laws;
mod operators;
mod plans;
mod values;

pub use expressions::{Cmp, Cond, Expr, Sign, Term};
pub use laws::{literals_are_worth_themselves, values_are_fit_bodies};
pub use plans::{ClientPlan, Op, TxnPlan};
pub use values::{EvalFault, eval, holds};
