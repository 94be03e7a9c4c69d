//! Terms without terms in them: strings, whole numbers and fixed words.
ghost use Rattle.std.specs.Prelude.{◌≡◌, Ok};
ghost use Rattle.cbt_json.specs.declared.tree.Tree.TheVariants.{Text as text};
ghost use Rattle.cbt_json.specs.Rules.{IsJson};
ghost use Rattle.cbt_syntax.specs.Readings.{Reads};
ghost use Rattle.cbt_syntax.specs.Terms.{word_at, text_at, whole_at, scalar_at, plain_at};

use crate::fault::SyntaxFault;
use crate::numbers::number;
use crate::pieces::behind;
use crate::strings::string;
use cbt_expr::Term;
use cbt_json::{Json, Tree};
use cbt_lex::past_spaces;
use std::alloc::Global;

/// A scalar with the spaces behind it, and what stands behind these.
#[tactic(auto, unfolding(crate::specs::Terms::plain_at))]
pub(crate) fn plain(alloc: Global, text: &str) -> Result<(Term, &str), SyntaxFault>
    ensures { Reads (λ x. (x.0, x.1.now)) result (plain_at text.now) }
{
    let (json, rest) = scalar(alloc, text)?;
    Ok((Term::Plain(json), past_spaces(rest)))
}

#[tactic(auto, unfolding(crate::specs::Terms::scalar_at))]
fn scalar(alloc: Global, text: &str) -> Result<(Json, &str), SyntaxFault>
    ensures { Reads (λ x. (x.0, x.1.now)) result (scalar_at text.now) }
{
    match text.as_bytes() {
        [b'"', ..] => string_value(alloc, text),
        [b'-', ..] => whole(text),
        [first, ..] => if first.is_ascii_digit() {
            whole(text)
        } else {
            word(text)
        },
        [] => Err(SyntaxFault::Malformed),
    }
}

fn string_value(alloc: Global, text: &str) -> Result<(Json, &str), SyntaxFault>
    ensures { Reads (λ x. (x.0, x.1.now)) result (text_at text.now) }
{
    let (value, rest) = string(alloc, text)?;
    Ok((json_of(Tree::Text(value)), rest))
}

fn whole(text: &str) -> Result<(Json, &str), SyntaxFault>
    ensures { Reads (λ x. (x.0, x.1.now)) result (whole_at text.now) }
{
    let (value, rest) = number(text)?;
    Ok((json_of(Tree::Whole(value)), rest))
}

#[tactic(auto, unfolding(crate::specs::Terms::word_at))]
fn word(text: &str) -> Result<(Json, &str), SyntaxFault>
    ensures { Reads (λ x. (x.0, x.1.now)) result (word_at text.now) }
{
    if let Some(rest) = behind(text, "null") {
        return Ok((json_of(Tree::Null), rest));
    }
    if let Some(rest) = behind(text, "true") {
        return Ok((json_of(Tree::Bool(true)), rest));
    }
    match behind(text, "false") {
        Some(rest) => Ok((json_of(Tree::Bool(false)), rest)),
        None => Err(SyntaxFault::Malformed),
    }
}

/// The JSON value of a tree that keeps the rules.
pub(crate) fn json_of(tree: Tree) -> Json
    requires { IsJson tree }
    ensures { result ≡ tree }
{
    Json::of(tree).unwrap()
}
