//! Operators.

ghost use Rattle.std.specs.Prelude.{◌≡◌, ◌-◌, ◌<◌, length, map, option_map, IfOk};
ghost use Rattle.dart_syntax.specs.Syntax.{selectors};
ghost use Rattle.dart_syntax.specs.View.{exp, link, piece, selector};
ghost use Rattle.dart_syntax.specs.Grammar.{is_target, written, last_is_written};
ghost use Rattle.dart_expr.specs.Input.{Reads};
ghost use Rattle.dart_expr.specs.Model as spec;
ghost use Rattle.dart_expr.specs.Nests.{Nests, parser_at};

use crate::cursor::Cursor;
use crate::grammar::Grammar;
use crate::names::name;
use crate::refusal::Refusal;
use crate::selectors::target;
use crate::tables::{assignment_at, binary_at, may_precede, step_at, turns, unary_at};
use dart_syntax::token::{Keyword, Sign, Span, TokenKind};
use dart_syntax::tree::{Expr, Link, Step, Unary};
use ds_base::let_go;
use sqlite_items::{Boxed, Items};
use std::alloc::Global;

impl<F: Fn(Global, &mut Cursor<'_>, usize, bool) -> Result<Expr, Refusal>> Grammar<F> {
    /// After the sign.
    #[tactic(auto, unfolding(crate::specs::Model::signed))]
    fn signed(&self, tokens: &mut Cursor<'_>, op: Unary) -> Result<Expr, Refusal>
        requires { Nests self.now.depth (F.pre self.now.expr) (F.post self.now.expr) }
        ensures { Reads exp (spec.signed (spec.expr self.now.depth) (spec.operand self.now.depth) op tokens.old) result tokens.new }
    {
        let at = tokens.take();
        if !may_precede(op, tokens.peek()) {
            return Err(tokens.refuse());
        }
        Ok(Expr::Unary(op, at, Boxed::new(self.alloc, self.operand(tokens)?)?))
    }

    #[tactic(auto, unfolding(crate::specs::Model::before))]
    fn before(&self, tokens: &mut Cursor<'_>, step: Step) -> Result<Expr, Refusal>
        requires { Nests self.now.depth (F.pre self.now.expr) (F.post self.now.expr) }
        ensures { Reads exp (spec.before (spec.expr self.now.depth) (spec.operand self.now.depth) step tokens.old) result tokens.new }
    {
        let at = tokens.take();
        let x = self.postfix(tokens)?;
        let x = target(self.alloc, tokens, x)?;
        Ok(Expr::Step(true, step, at, x))
    }

    #[tactic(auto, unfolding(crate::specs::Model::stepped))]
    fn stepped(&self, tokens: &mut Cursor<'_>) -> Result<Expr, Refusal>
        requires { Nests self.now.depth (F.pre self.now.expr) (F.post self.now.expr) }
        ensures { Reads exp (spec.stepped (spec.expr self.now.depth) (spec.operand self.now.depth) tokens.old) result tokens.new }
    {
        let x = self.postfix(tokens)?;
        match step_at(tokens.peek()) {
            None => Ok(x),
            Some(step) => {
                let x = target(self.alloc, tokens, x)?;
                Ok(Expr::Step(false, step, tokens.take(), x))
            }
        }
    }

    #[tactic(auto, unfolding(crate::specs::Model::unary))]
    fn unary(&self, tokens: &mut Cursor<'_>) -> Result<Expr, Refusal>
        requires { Nests self.now.depth (F.pre self.now.expr) (F.post self.now.expr) }
        ensures { Reads exp (spec.unary (spec.expr self.now.depth) (spec.operand self.now.depth) tokens.old) result tokens.new }
    {
        if let Some(op) = unary_at(tokens.peek()) {
            self.signed(tokens, op)
        } else if let Some(step) = step_at(tokens.peek()) {
            self.before(tokens, step)
        } else {
            self.stepped(tokens)
        }
    }

    /// What stands under a sign.
    #[tactic(auto, unfolding(crate::specs::Model::under))]
    pub(crate) fn under(&self, tokens: &mut Cursor<'_>) -> Result<Expr, Refusal>
        requires { Nests self.now.depth (F.pre self.now.expr) (F.post self.now.expr) }
        ensures { Reads exp (spec.under (spec.expr self.now.depth) (spec.operand self.now.depth) tokens.old) result tokens.new }
    {
        match tokens.peek() {
            Some(TokenKind::MinInt) => Ok(Expr::MinInt(tokens.take())),
            _ => self.unary(tokens),
        }
    }

    #[tactic(auto, unfolding(crate::specs::Model::link))]
    #[cycle(chain)]
    fn link(&self, tokens: &mut Cursor<'_>, level: u8) -> Result<Option<Link<Expr>>, Refusal>
        requires nests { Nests self.now.depth (F.pre self.now.expr) (F.post self.now.expr) }
        requires level { 0 < level }
        ensures { Reads (option_map link) (spec.link level (spec.chain (spec.expr self.now.depth) (spec.operand self.now.depth) (level - 1)) tokens.old) result tokens.new }
    {
        match binary_at(level, tokens.peek()) {
            None => Ok(None),
            Some(op) => {
                let at = tokens.take();
                Ok(Some(Link {
                    operator: op,
                    span: at,
                    operand: self.chain(tokens, level - 1)?,
                }))
            }
        }
    }

    #[tactic(auto, unfolding(crate::specs::Model::links))]
    #[cycle(chain)]
    fn links(&self, tokens: &mut Cursor<'_>, level: u8) -> Result<Items<Link<Expr>>, Refusal>
        requires nests { Nests self.now.depth (F.pre self.now.expr) (F.post self.now.expr) }
        requires level { 0 < level }
        ensures { Reads (map link) (spec.links level (spec.chain (spec.expr self.now.depth) (spec.operand self.now.depth) (level - 1)) tokens.old) result tokens.new }
    {
        let mut found = Items::new(self.alloc);
        for _turn in 0..turns(tokens, level) {
            match self.link(tokens, level)? {
                Some(link) => found.push(link)?,
                None => return Ok(found),
            }
        }
        Ok(found)
    }

    /// After `is`.
    #[tactic(auto, unfolding(crate::specs::Model::tested))]
    fn tested(&self, tokens: &mut Cursor<'_>, x: Expr, at: Span) -> Result<Expr, Refusal>
        ensures { Reads exp (spec.tested (exp x) at tokens.old) result tokens.new }
    {
        let is_negated = tokens.eat(Sign::Not);
        let x = Boxed::new(self.alloc, x)?;
        let class = name(self.alloc, tokens)?;
        Ok(Expr::Is(x, is_negated, at, class))
    }

    /// Behind the first operand of a level.
    #[tactic(auto, unfolding(crate::specs::Model::followed))]
    #[cycle(chain)]
    fn followed(&self, tokens: &mut Cursor<'_>, level: u8, first: Expr) -> Result<Expr, Refusal>
        requires nests { Nests self.now.depth (F.pre self.now.expr) (F.post self.now.expr) }
        requires level { 0 < level }
        ensures { Reads exp (spec.followed level (spec.chain (spec.expr self.now.depth) (spec.operand self.now.depth) (level - 1)) (exp first) tokens.old) result tokens.new }
    {
        let at = tokens.span();
        if level == 7 && tokens.eat_keyword(Keyword::Is) {
            return self.tested(tokens, first, at);
        }
        let links = match self.links(tokens, level) {
            Ok(links) => links,
            Err(refusal) => {
                let_go(first);
                return Err(refusal);
            }
        };
        if links.is_empty() {
            return Ok(first);
        }
        Ok(Expr::Chain(Boxed::new(self.alloc, first)?, links))
    }

    /// Operators of the level and of the tighter ones, the tightest first.
    #[cycle(chain)]
    fn chain(&self, tokens: &mut Cursor<'_>, level: u8) -> Result<Expr, Refusal>
        requires { Nests self.now.depth (F.pre self.now.expr) (F.post self.now.expr) }
        ensures { Reads exp (spec.chain (spec.expr self.now.depth) (spec.operand self.now.depth) level tokens.old) result tokens.new }
    {
        let mut x = self.unary(tokens)?;
        for tighter in 0..level {
            x = self.followed(tokens, tighter + 1, x)?;
        }
        Ok(x)
    }

    #[tactic(auto, unfolding(crate::specs::Model::branches))]
    fn branches(&self, tokens: &mut Cursor<'_>, test: Expr) -> Result<Expr, Refusal>
        requires { Nests self.now.depth (F.pre self.now.expr) (F.post self.now.expr) }
        ensures { Reads exp (spec.branches (spec.expr self.now.depth) (spec.operand self.now.depth) (exp test) tokens.old) result tokens.new }
    {
        let test = Boxed::new(self.alloc, test)?;
        let then = self.boxed_whole(tokens)?;
        tokens.expect(Sign::Colon)?;
        let other = self.boxed_whole(tokens)?;
        Ok(Expr::Cond(test, then, other))
    }

    #[tactic(auto, unfolding(crate::specs::Model::cond))]
    fn cond(&self, tokens: &mut Cursor<'_>) -> Result<Expr, Refusal>
        requires { Nests self.now.depth (F.pre self.now.expr) (F.post self.now.expr) }
        ensures { Reads exp (spec.cond (spec.expr self.now.depth) (spec.operand self.now.depth) tokens.old) result tokens.new }
    {
        let test = self.chain(tokens, 10)?;
        if tokens.eat(Sign::Question) {
            self.branches(tokens, test)
        } else {
            Ok(test)
        }
    }

    #[tactic(auto, unfolding(crate::specs::Model::assigned))]
    fn assigned(&self, tokens: &mut Cursor<'_>) -> Result<Expr, Refusal>
        requires { Nests self.now.depth (F.pre self.now.expr) (F.post self.now.expr) }
        ensures { Reads exp (spec.assigned (spec.expr self.now.depth) (spec.operand self.now.depth) tokens.old) result tokens.new }
    {
        let x = self.cond(tokens)?;
        match assignment_at(tokens.peek()) {
            None => Ok(x),
            Some(op) => {
                let x = target(self.alloc, tokens, x)?;
                let at = tokens.take();
                Ok(Expr::Assign(x, op, at, self.boxed_whole(tokens)?))
            }
        }
    }

    #[tactic(auto, unfolding(crate::specs::Model::expression))]
    pub(crate) fn expression(&self, tokens: &mut Cursor<'_>) -> Result<Expr, Refusal>
        requires { Nests self.now.depth (F.pre self.now.expr) (F.post self.now.expr) }
        ensures { Reads exp (spec.expression (spec.expr self.now.depth) (spec.operand self.now.depth) tokens.old) result tokens.new }
    {
        let at = tokens.span();
        if tokens.eat_keyword(Keyword::Throw) {
            Ok(Expr::Throw(at, self.boxed_whole(tokens)?))
        } else {
            self.assigned(tokens)
        }
    }
}
