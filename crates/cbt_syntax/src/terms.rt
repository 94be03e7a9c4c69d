//! Terms and expressions at the front of a text.
ghost use Rattle.std.specs.Prelude.{◌≡◌, ◌<◌, [], length, Some, None, Ok, Err, MatchOption};
ghost use Rattle.cbt_syntax.specs.Readings.{Reads};
ghost use Rattle.cbt_syntax.specs.References.{name_at};
ghost use Rattle.cbt_syntax.specs.Bound.{is_taken};
ghost use Rattle.cbt_syntax.specs.Named.{by_name};
ghost use Rattle.cbt_syntax.specs.Terms as spec;

use crate::fault::SyntaxFault;
use crate::members::by_name;
use crate::pieces::behind_first;
use crate::references::{name_len, path};
use crate::scalars::plain;
use crate::strings::string;
use cbt_base::{List, Map, Text};
use cbt_expr::{Expr, Sign, Term};
use cbt_lex::{is_a_name, past_spaces};
use std::alloc::Global;

/// What a reading goes by.
#[derive(Drop)]
pub(crate) struct Reader<'a, V> {
    pub(crate) alloc: Global,
    /// Its keys are the names that are bound.
    pub(crate) bound: &'a Map<Text, V>,
    /// Whether every name counts as bound.
    pub(crate) every: bool,
}

impl<V> Reader<'_, V> {
    /// An expression in which so many levels of lists and objects may nest, and what stands behind it.
    #[tactic(auto, unfolding(crate::specs::Terms::expr_by))]
    #[cycle(terms)]
    pub(crate) fn expr<'t>(
        &self,
        text: &'t str,
        levels: u32,
    ) -> Result<(Expr, &'t str), SyntaxFault>
        ensures { Reads (λ x. (x.0, x.1.now)) result (spec.expr_at (is_taken self.now.every self.now.bound.now) levels text.now) }
    {
        let (first, behind) = self.term(text, levels)?;
        let (rest, behind) = self.joined(behind, levels)?;
        Ok((Expr { first, rest }, behind))
    }

    // The terms that are joined to those before them.
    #[tactic(auto, unfolding(crate::specs::Terms::joined_from))]
    #[cycle(terms)]
    fn joined<'t>(
        &self,
        text: &'t str,
        levels: u32,
    ) -> Result<(List<(Sign, Term)>, &'t str), SyntaxFault>
        ensures { Reads (λ x. (x.0, x.1.now)) result (spec.joined_from (spec.term_at (is_taken self.now.every self.now.bound.now) levels) (length text.now) [] text.now) }
    {
        let mut found = List::new(self.alloc);
        let mut rest = text;
        for _turn in 0..text.len() {
            let Some((sign, behind)) = sign(rest) else {
                return Ok((found, rest));
            };
            let (term, behind) = self.term(behind, levels)?;
            found.push((sign, term))?;
            rest = behind;
        }
        Ok((found, rest))
    }

    #[tactic(auto, unfolding(crate::specs::Terms::term_by, crate::specs::Terms::term_at))]
    #[cycle(terms)]
    fn term<'t>(&self, text: &'t str, levels: u32) -> Result<(Term, &'t str), SyntaxFault>
        ensures { Reads (λ x. (x.0, x.1.now)) result (spec.term_at (is_taken self.now.every self.now.bound.now) levels text.now) }
    {
        match text.as_bytes() {
            [b'[', ..] => {
                if levels == 0 {
                    return Err(SyntaxFault::Malformed);
                }
                self.list(past_spaces(behind_first(text)), levels - 1)
            }
            [b'{', ..] => {
                if levels == 0 {
                    return Err(SyntaxFault::Malformed);
                }
                self.object(past_spaces(behind_first(text)), levels - 1)
            }
            [b'@', ..] => self.reference(behind_first(text)),
            [] => Err(SyntaxFault::Malformed),
            _ => plain(self.alloc, text),
        }
    }

    // A reference behind its `@`.
    #[tactic(auto, unfolding(crate::specs::Terms::reference_at))]
    fn reference<'t>(&self, text: &'t str) -> Result<(Term, &'t str), SyntaxFault>
        ensures { Reads (λ x. (x.0, x.1.now)) result (spec.reference_at (is_taken self.now.every self.now.bound.now) text.now) }
    {
        let (name, rest) = self.name(text)?;
        let (path, rest) = path(self.alloc, rest)?;
        Ok((Term::Ref { name, path }, past_spaces(rest)))
    }

    // A name, which has to be bound.
    fn name<'t>(&self, text: &'t str) -> Result<(Text, &'t str), SyntaxFault>
        ensures { Reads (λ x. (x.0, x.1.now)) result (name_at (is_taken self.now.every self.now.bound.now) text.now) }
    {
        let (front, rest) = text.split_at(name_len(text));
        if !is_a_name(front) {
            return Err(SyntaxFault::Malformed);
        }
        let name = Text::from_str(self.alloc, front)?;
        if self.every || self.bound.contains_key(&name) {
            Ok((name, rest))
        } else {
            Err(SyntaxFault::Unbound)
        }
    }

    // A list behind its bracket; so many levels may nest in its items.
    #[tactic(auto, unfolding(crate::specs::Terms::list_at))]
    #[cycle(terms)]
    fn list<'t>(&self, text: &'t str, levels: u32) -> Result<(Term, &'t str), SyntaxFault>
        ensures { Reads (λ x. (x.0, x.1.now)) result (spec.list_at (spec.expr_at (is_taken self.now.every self.now.bound.now) levels) text.now) }
    {
        match text.as_bytes() {
            [] => Err(SyntaxFault::Malformed),
            [b']', ..] => Ok((
                Term::Items(List::new(self.alloc)),
                past_spaces(behind_first(text)),
            )),
            _ => {
                let (items, rest) = self.items(text, levels)?;
                Ok((Term::Items(items), rest))
            }
        }
    }

    #[tactic(auto, unfolding(crate::specs::Terms::items_from))]
    #[cycle(terms)]
    fn items<'t>(&self, text: &'t str, levels: u32) -> Result<(List<Expr>, &'t str), SyntaxFault>
        ensures { Reads (λ x. (x.0, x.1.now)) result (spec.items_from (spec.expr_at (is_taken self.now.every self.now.bound.now) levels) (length text.now) [] text.now) }
    {
        let mut found = List::new(self.alloc);
        let mut rest = text;
        for _turn in 0..text.len() {
            let (item, behind) = self.expr(rest, levels)?;
            found.push(item)?;
            let (more, behind) = after_item(behind, b']')?;
            if !more {
                return Ok((found, behind));
            }
            rest = behind;
        }
        Err(SyntaxFault::Malformed)
    }

    // An object behind its bracket; so many levels may nest in its members.
    #[tactic(auto, unfolding(crate::specs::Terms::object_at))]
    #[cycle(terms)]
    fn object<'t>(&self, text: &'t str, levels: u32) -> Result<(Term, &'t str), SyntaxFault>
        ensures { Reads (λ x. (x.0, x.1.now)) result (spec.object_at (spec.expr_at (is_taken self.now.every self.now.bound.now) levels) text.now) }
    {
        match text.as_bytes() {
            [] => Err(SyntaxFault::Malformed),
            [b'}', ..] => Ok((
                Term::Members(List::new(self.alloc)),
                past_spaces(behind_first(text)),
            )),
            _ => {
                let (members, rest) = self.members(text, levels)?;
                Ok((Term::Members(by_name(self.alloc, members)?), rest))
            }
        }
    }

    // The members in the order of the text.
    #[tactic(auto, unfolding(crate::specs::Terms::members_from))]
    #[cycle(terms)]
    fn members<'t>(
        &self,
        text: &'t str,
        levels: u32,
    ) -> Result<(List<(Text, Expr)>, &'t str), SyntaxFault>
        ensures { Reads (λ x. (by_name x.0, x.1.now)) result (spec.members_from (spec.expr_at (is_taken self.now.every self.now.bound.now) levels) (length text.now) [] text.now) }
    {
        let mut found = List::new(self.alloc);
        let mut rest = text;
        for _turn in 0..text.len() {
            let (member, behind) = self.member(rest, levels)?;
            found.push(member)?;
            let (more, behind) = after_item(behind, b'}')?;
            if !more {
                return Ok((found, behind));
            }
            rest = behind;
        }
        Err(SyntaxFault::Malformed)
    }

    // A name, a colon and an expression.
    #[tactic(auto, unfolding(crate::specs::Terms::member_at))]
    #[cycle(terms)]
    fn member<'t>(&self, text: &'t str, levels: u32) -> Result<((Text, Expr), &'t str), SyntaxFault>
        ensures { Reads (λ x. (x.0, x.1.now)) result (spec.member_at (spec.expr_at (is_taken self.now.every self.now.bound.now) levels) text.now) }
    {
        let (name, rest) = string(self.alloc, text)?;
        let rest = past(past_spaces(rest), b':')?;
        let (value, rest) = self.expr(rest, levels)?;
        Ok(((name, value), rest))
    }
}

// What stands behind a byte, which has to be there, and the spaces that follow it.
fn past(text: &str, byte: u8) -> Result<&str, SyntaxFault>
    requires { byte < 128 }
    ensures { Reads (λ rest. rest.now) result (spec.past byte text.now) }
{
    match text.as_bytes() {
        [first, ..] if *first == byte => Ok(past_spaces(behind_first(text))),
        _ => Err(SyntaxFault::Malformed),
    }
}

// Whether a comma tells of another item, or this byte closes them.
fn after_item(text: &str, close: u8) -> Result<(bool, &str), SyntaxFault>
    requires { close < 128 }
    ensures { Reads (λ x. (x.0, x.1.now)) result (spec.after_item close text.now) }
{
    match text.as_bytes() {
        [b',', ..] => Ok((true, past_spaces(behind_first(text)))),
        [first, ..] if *first == close => Ok((false, past_spaces(behind_first(text)))),
        _ => Err(SyntaxFault::Malformed),
    }
}

// A sign at the front, and what stands behind it and the spaces that follow it.
fn sign(text: &str) -> Option<(Sign, &str)>
    ensures { MatchOption result (spec.sign_at text.now ≡ None) (λ x. spec.sign_at text.now ≡ Some (x.0, x.1.now)) }
{
    match text.as_bytes() {
        [b'+', ..] => Some((Sign::Plus, past_spaces(behind_first(text)))),
        [b'-', ..] => Some((Sign::Minus, past_spaces(behind_first(text)))),
        _ => None,
    }
}
