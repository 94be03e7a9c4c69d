//! The operators of expressions and conditions.
ghost use Rattle.std.specs.Prelude.{◌≡◌};
ghost use Rattle.cbt_json.specs.Rules.{is_in_range};
ghost use Rattle.cbt_json.specs.Same.{tree_eq};
ghost use Rattle.cbt_expr.specs.Values.{added, compared, whole_of};

use crate::expressions::{Cmp, Sign};
use cbt_json::Tree;

/// A sum or a difference, where both sides are whole numbers and it is in their range.
pub(crate) fn added(sign: Sign, x: &Tree, y: &Tree) -> Option<Tree>
    ensures { result ≡ added sign x.now y.now }
{
    let m = whole_of(x)?;
    let n = whole_of(y)?;
    let sum = match sign {
        Sign::Plus => m.checked_add(n),
        Sign::Minus => m.checked_sub(n),
    };
    match sum {
        Some(sum) if is_in_range(sum) => Some(Tree::Whole(sum)),
        _ => None,
    }
}

/// How two values compare; the four orders are those of whole numbers.
pub(crate) fn compared(cmp: Cmp, x: &Tree, y: &Tree) -> Option<bool>
    ensures { result ≡ compared cmp x.now y.now }
{
    match cmp {
        Cmp::Eq => Some(are_same(x, y)),
        Cmp::Ne => Some(!are_same(x, y)),
        Cmp::Lt => Some(whole_of(x)? < whole_of(y)?),
        Cmp::Le => Some(whole_of(x)? <= whole_of(y)?),
        Cmp::Gt => Some(whole_of(x)? > whole_of(y)?),
        Cmp::Ge => Some(whole_of(x)? >= whole_of(y)?),
    }
}

fn whole_of(value: &Tree) -> Option<i128>
    ensures { result ≡ whole_of value.now }
{
    match value {
        Tree::Whole(n) => Some(*n),
        _ => None,
    }
}

fn is_in_range(n: i128) -> bool
    ensures { result ≡ is_in_range n }
{
    i64::MIN as i128 <= n && n <= u64::MAX as i128
}

fn are_same(x: &Tree, y: &Tree) -> bool
    ensures { result ≡ tree_eq x.now y.now }
{
    x.same(y)
}
