//! Laws of reading and writing.
ghost use Rattle.std.specs.Prelude.{◌≡◌, ℕ, List, Bool, Ok};
ghost use Rattle.cbt_expr.specs.declared.expressions.Expr.{Expr};
ghost use Rattle.cbt_expr.specs.declared.expressions.Cond.{Cond};
ghost use Rattle.cbt_syntax.specs.Rules.{IsExpr, IsCond};
ghost use Rattle.cbt_syntax.specs.Texts.{expr_text, cond_text};
ghost use Rattle.cbt_syntax.specs.Whole.{expr_of, cond_of};

/// A law: the canonical text of an expression that keeps the rules is read as that expression.
pub fn expr_text_reads_back()
    ensures { (bound : List ℕ → Bool) (expr : Expr) → IsExpr bound expr → expr_of bound (expr_text expr) ≡ Ok expr }
{}

/// A law: the canonical text of a condition that keeps the rules is read as that condition.
pub fn cond_text_reads_back()
    ensures { (bound : List ℕ → Bool) (cond : Cond) → IsCond bound cond → cond_of bound (cond_text cond) ≡ Ok cond }
{}

/// A law: an expression that is read keeps the rules, so its canonical text is read as it again.
pub fn read_expressions_keep_rules()
    ensures { (bound : List ℕ → Bool) (text : List ℕ) (expr : Expr) → expr_of bound text ≡ Ok expr → IsExpr bound expr }
{}

/// A law: a condition that is read keeps the rules, so its canonical text is read as it again.
pub fn read_conditions_keep_rules()
    ensures { (bound : List ℕ → Bool) (text : List ℕ) (cond : Cond) → cond_of bound text ≡ Ok cond → IsCond bound cond }
{}
