ghost use Rattle.std.specs.Prelude.{◌≡◌, ◌⊎◌, Err};
ghost use Rattle.cbt_syntax.specs.Bound.{is_bound_in};
ghost use Rattle.cbt_syntax.specs.Whole.{expr_of, cond_of};

use crate::fault::SyntaxFault;
use crate::terms::Reader;
use cbt_base::{Map, Text};
use cbt_expr::{Cond, Expr};
use std::alloc::Global;

/// Reads an expression, which is the whole text. The names that it may refer to are the keys of
/// `bound`.
pub fn read_expr<V>(alloc: Global, text: &str, bound: &Map<Text, V>) -> Result<Expr, SyntaxFault>
    // So a text has one answer, unless memory runs out.
    ensures answer { (result ≡ expr_of (is_bound_in bound.now) text.now) ⊎ (result ≡ Err SyntaxFault.NoMemory) }
{
    let strict = Reader {
        alloc,
        bound,
        every: false,
    };
    let free = Reader {
        alloc,
        bound,
        every: true,
    };
    match strict.whole_expr(text) {
        // The name counts only where the text reads when every name counts as bound.
        Err(SyntaxFault::Unbound) => match free.whole_expr(text) {
            Ok(_) => Err(SyntaxFault::Unbound),
            Err(fault) => Err(fault),
        },
        decided => decided,
    }
}

/// Reads a condition, which is the whole text. The names that it may refer to are the keys of
/// `bound`.
pub fn read_cond<V>(alloc: Global, text: &str, bound: &Map<Text, V>) -> Result<Cond, SyntaxFault>
    ensures answer { (result ≡ cond_of (is_bound_in bound.now) text.now) ⊎ (result ≡ Err SyntaxFault.NoMemory) }
{
    let strict = Reader {
        alloc,
        bound,
        every: false,
    };
    let free = Reader {
        alloc,
        bound,
        every: true,
    };
    match strict.whole_cond(text) {
        // The name counts only where the text reads when every name counts as bound.
        Err(SyntaxFault::Unbound) => match free.whole_cond(text) {
            Ok(_) => Err(SyntaxFault::Unbound),
            Err(fault) => Err(fault),
        },
        decided => decided,
    }
}
