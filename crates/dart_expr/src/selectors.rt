//! Selectors behind primary expressions, and what may be assigned to.

ghost use Rattle.std.specs.Prelude.{◌≡◌, ◌-◌, ◌<◌, length, map, option_map, IfOk};
ghost use Rattle.dart_syntax.specs.Syntax.{selectors};
ghost use Rattle.dart_syntax.specs.View.{exp, link, piece, selector};
ghost use Rattle.dart_syntax.specs.Grammar.{is_target, written, last_is_written};
ghost use Rattle.dart_expr.specs.Input.{Reads};
ghost use Rattle.dart_expr.specs.Model as spec;
ghost use Rattle.dart_expr.specs.Nests.{Nests, parser_at};

use crate::cursor::Cursor;
use crate::grammar::Grammar;
use crate::names::name;
use crate::refusal::Refusal;
use dart_syntax::token::{Sign, Span, TokenKind};
use dart_syntax::tree::{Expr, Selector};
use ds_base::let_go;
use sqlite_items::{Boxed, Items};
use std::alloc::Global;

impl<F: Fn(Global, &mut Cursor<'_>, usize, bool) -> Result<Expr, Refusal>> Grammar<F> {
    /// After the dot.
    #[tactic(auto, unfolding(crate::specs::Model::member))]
    fn member(&self, tokens: &mut Cursor<'_>) -> Result<Selector, Refusal>
        requires { Nests self.now.depth (F.pre self.now.expr) (F.post self.now.expr) }
        ensures { Reads selector (spec.member (spec.expr self.now.depth) tokens.old) result tokens.new }
    {
        let name = name(self.alloc, tokens)?;
        if tokens.eat(Sign::ParenOpen) {
            Ok(Selector::Invoke(name, self.args(tokens, Sign::ParenClose)?))
        } else {
            Ok(Selector::Member(name))
        }
    }

    /// After the bracket.
    #[tactic(auto, unfolding(crate::specs::Model::index))]
    fn index(&self, tokens: &mut Cursor<'_>, at: Span) -> Result<Selector, Refusal>
        requires { Nests self.now.depth (F.pre self.now.expr) (F.post self.now.expr) }
        ensures { Reads selector (spec.index (spec.expr self.now.depth) at tokens.old) result tokens.new }
    {
        let index = self.whole(tokens)?;
        match tokens.expect(Sign::BracketClose) {
            Ok(_) => Ok(Selector::Index(at, index)),
            Err(refusal) => {
                let_go(index);
                Err(refusal)
            }
        }
    }

    #[tactic(auto, unfolding(crate::specs::Model::selector))]
    fn selector(&self, tokens: &mut Cursor<'_>) -> Result<Option<Selector>, Refusal>
        requires { Nests self.now.depth (F.pre self.now.expr) (F.post self.now.expr) }
        ensures { Reads (option_map selector) (spec.selector (spec.expr self.now.depth) tokens.old) result tokens.new }
    {
        match tokens.peek() {
            Some(TokenKind::Sign(Sign::Dot)) => {
                tokens.skip();
                Ok(Some(self.member(tokens)?))
            }
            Some(TokenKind::Sign(Sign::BracketOpen)) => {
                let at = tokens.take();
                Ok(Some(self.index(tokens, at)?))
            }
            _ => Ok(None),
        }
    }

    #[tactic(auto, unfolding(crate::specs::Model::selectors))]
    fn selectors(&self, tokens: &mut Cursor<'_>) -> Result<Items<Selector>, Refusal>
        requires { Nests self.now.depth (F.pre self.now.expr) (F.post self.now.expr) }
        ensures { Reads (map selector) (spec.selectors (spec.expr self.now.depth) tokens.old) result tokens.new }
    {
        let mut found = Items::new(self.alloc);
        for _turn in 0..tokens.left() {
            match self.selector(tokens)? {
                Some(selector) => found.push(selector)?,
                None => return Ok(found),
            }
        }
        Ok(found)
    }

    #[tactic(auto, unfolding(crate::specs::Model::postfix))]
    pub(crate) fn postfix(&self, tokens: &mut Cursor<'_>) -> Result<Expr, Refusal>
        requires { Nests self.now.depth (F.pre self.now.expr) (F.post self.now.expr) }
        ensures { Reads exp (spec.postfix (spec.expr self.now.depth) tokens.old) result tokens.new }
    {
        let first = self.primary(tokens)?;
        let selectors = match self.selectors(tokens) {
            Ok(selectors) => selectors,
            Err(refusal) => {
                let_go(first);
                return Err(refusal);
            }
        };
        if selectors.is_empty() {
            return Ok(first);
        }
        Ok(Expr::Postfix(Boxed::new(self.alloc, first)?, selectors))
    }
}

#[tactic(auto)]
fn is_target(x: &Expr) -> bool
    ensures { result ≡ is_target (exp x.now) }
{
    match x {
        Expr::Name(_) | Expr::SuperGet(_, _) => true,
        Expr::Postfix(_, selectors) => last_is_written(selectors.as_slice()),
        _ => false,
    }
}

#[tactic(auto, unfolding(crate::specs::Model::target))]
pub(crate) fn target(alloc: Global, tokens: &Cursor<'_>, x: Expr) -> Result<Boxed<Expr>, Refusal>
    ensures { Reads exp (spec.target (exp x) tokens.now) result tokens.now }
{
    if is_target(&x) {
        Ok(Boxed::new(alloc, x)?)
    } else {
        let_go(x);
        Err(tokens.refuse())
    }
}

fn is_written(x: &Selector) -> bool
    ensures { result ≡ written (selector x.now) }
{
    match x {
        Selector::Member(_) => true,
        Selector::Index(_, _) => true,
        Selector::Invoke(_, _) => false,
    }
}

/// Whether the last selector may be written to.
#[tactic(auto, using(crate::proofs::View::last_written))]
fn last_is_written(all: &[Selector]) -> bool
    ensures { result ≡ last_is_written (selectors (map selector all.now)) }
{
    match all.last() {
        Some(x) => is_written(x),
        None => false,
    }
}
