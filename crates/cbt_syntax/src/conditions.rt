//! Whole texts: expressions, and conditions.
ghost use Rattle.std.specs.Prelude.{◌≡◌, Ok};
ghost use Rattle.cbt_syntax.specs.Readings.{Reads};
ghost use Rattle.cbt_syntax.specs.Bound.{is_taken};
ghost use Rattle.cbt_syntax.specs.Conditions as spec;

use crate::fault::SyntaxFault;
use crate::pieces::behind;
use crate::terms::Reader;
use cbt_base::Text;
use cbt_expr::{Cmp, Cond, Expr};
use cbt_lex::{is_a_name, past_spaces};

/// How many levels of lists and objects an expression may have.
const MAX_LEVELS: u32 = 127;

impl<V> Reader<'_, V> {
    /// An expression and nothing more.
    #[tactic(auto, unfolding(crate::specs::Conditions::whole_expr))]
    pub(crate) fn whole_expr(&self, text: &str) -> Result<Expr, SyntaxFault>
        ensures { Reads (λ x. x) result (spec.whole_expr (is_taken self.now.every self.now.bound.now) text.now) }
    {
        let (expr, rest) = self.expr(text, MAX_LEVELS)?;
        match rest.as_bytes() {
            [] => Ok(expr),
            _ => Err(SyntaxFault::Malformed),
        }
    }

    /// A condition and nothing more.
    #[tactic(auto, unfolding(crate::specs::Conditions::whole_cond))]
    pub(crate) fn whole_cond(&self, text: &str) -> Result<Cond, SyntaxFault>
        ensures { Reads (λ x. x) result (spec.whole_cond (is_taken self.now.every self.now.bound.now) text.now) }
    {
        if let Some(rest) = behind(text, "some ") {
            return Ok(Cond::Has {
                name: self.whole_name(past_spaces(rest))?,
            });
        }
        if let Some(rest) = behind(text, "none ") {
            return Ok(Cond::Lacks {
                name: self.whole_name(past_spaces(rest))?,
            });
        }
        self.comparison(text)
    }

    #[tactic(auto, unfolding(crate::specs::Conditions::comparison))]
    fn comparison(&self, text: &str) -> Result<Cond, SyntaxFault>
        ensures { Reads (λ x. x) result (spec.comparison (is_taken self.now.every self.now.bound.now) text.now) }
    {
        let (left, rest) = self.expr(text, MAX_LEVELS)?;
        let (cmp, rest) = cmp(rest)?;
        let right = self.whole_expr(rest)?;
        Ok(Cond::Compare { left, cmp, right })
    }

    // A name and nothing more, which has to be bound.
    #[tactic(auto, unfolding(crate::specs::Conditions::whole_name))]
    fn whole_name(&self, text: &str) -> Result<Text, SyntaxFault>
        ensures { Reads (λ x. x) result (spec.whole_name (is_taken self.now.every self.now.bound.now) text.now) }
    {
        if !is_a_name(text) {
            return Err(SyntaxFault::Malformed);
        }
        let name = Text::from_str(self.alloc, text)?;
        if self.every || self.bound.contains_key(&name) {
            Ok(name)
        } else {
            Err(SyntaxFault::Unbound)
        }
    }
}

// The operator at the front, and what stands behind it and the spaces that follow it.
#[tactic(auto, unfolding(crate::specs::Conditions::cmp_at))]
fn cmp(text: &str) -> Result<(Cmp, &str), SyntaxFault>
    ensures { Reads (λ x. (x.0, x.1.now)) result (spec.cmp_at text.now) }
{
    if let Some(rest) = behind(text, "==") {
        return Ok((Cmp::Eq, past_spaces(rest)));
    }
    if let Some(rest) = behind(text, "!=") {
        return Ok((Cmp::Ne, past_spaces(rest)));
    }
    if let Some(rest) = behind(text, "<=") {
        return Ok((Cmp::Le, past_spaces(rest)));
    }
    if let Some(rest) = behind(text, "<") {
        return Ok((Cmp::Lt, past_spaces(rest)));
    }
    if let Some(rest) = behind(text, ">=") {
        return Ok((Cmp::Ge, past_spaces(rest)));
    }
    match behind(text, ">") {
        Some(rest) => Ok((Cmp::Gt, past_spaces(rest))),
        None => Err(SyntaxFault::Malformed),
    }
}
