//! The text of expressions and conditions: reading it, and writing it in its canonical form.
#![tactic(auto)]

mod conditions;
mod fault;
mod laws;
mod members;
mod numbers;
mod paths;
mod pieces;
mod printing;
mod reading;
mod references;
mod scalars;
mod strings;
mod terms;

pub use fault::SyntaxFault;
pub use laws::{
    cond_text_reads_back, expr_text_reads_back, read_conditions_keep_rules,
    read_expressions_keep_rules,
};
pub use printing::{push_cond, push_expr};
pub use reading::{read_cond, read_expr};
