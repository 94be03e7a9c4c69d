//! Laws of expressions.
ghost use Rattle.std.specs.Prelude.{◌≡◌, ℕ, List, Option, Ok};
ghost use Rattle.cbt_json.specs.declared.value.Json.{Json};
ghost use Rattle.cbt_json.specs.declared.tree.Tree.{Tree};
ghost use Rattle.cbt_json.specs.Rules.{BodyFits, IsJson};
ghost use Rattle.cbt_expr.specs.declared.expressions.Expr.{Expr};
ghost use Rattle.cbt_expr.specs.Literals.{literal};
ghost use Rattle.cbt_expr.specs.Values.{value_of};

/// A law: the value of an expression is a JSON value, and a fit body.
pub fn values_are_fit_bodies()
    ensures { (bound : List ℕ → Option Json) (e : Expr) (v : Json) → value_of bound e ≡ Ok v → IsJson v × BodyFits v }
{}

/// A law: a JSON value that is written out is worth itself, where it is a fit body.
pub fn literals_are_worth_themselves()
    ensures { (bound : List ℕ → Option Json) (v : Tree) → IsJson v → BodyFits v → value_of bound (literal v) ≡ Ok v }
{}
