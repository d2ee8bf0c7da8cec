//! The rules that hold expressions take the parser of those as a parameter, so that each is proved by itself.

ghost use Rattle.std.specs.Prelude.{◌≡◌, ◌-◌, ◌<◌, length, map, option_map, IfOk};
ghost use Rattle.dart_syntax.specs.Syntax.{selectors};
ghost use Rattle.dart_syntax.specs.View.{exp, link, piece, selector};
ghost use Rattle.dart_syntax.specs.Grammar.{is_target, written, last_is_written};
ghost use Rattle.dart_expr.specs.Input.{Reads};
ghost use Rattle.dart_expr.specs.Model as spec;
ghost use Rattle.dart_expr.specs.Nests.{Nests, parser_at};

use crate::cursor::Cursor;
use crate::firsts::{begins, begins_under};
use crate::refusal::Refusal;
use dart_syntax::token::Sign;
use dart_syntax::tree::Expr;
use sqlite_items::{Boxed, Items};
use std::alloc::Global;

#[derive(Clone, Copy)]
pub struct Grammar<F> {
    pub alloc: Global,
    /// How many levels expressions may still nest.
    pub depth: usize,
    pub expr: F,
}

impl<F: Fn(Global, &mut Cursor<'_>, usize, bool) -> Result<Expr, Refusal>> Grammar<F> {
    /// An expression one level deeper.
    pub(crate) fn whole(&self, tokens: &mut Cursor<'_>) -> Result<Expr, Refusal>
        requires { Nests self.now.depth (F.pre self.now.expr) (F.post self.now.expr) }
        ensures { Reads exp (spec.expr self.now.depth tokens.old) result tokens.new }
    {
        (self.expr)(self.alloc, tokens, self.depth, false)
    }

    pub(crate) fn boxed_whole(&self, tokens: &mut Cursor<'_>) -> Result<Boxed<Expr>, Refusal>
        requires { Nests self.now.depth (F.pre self.now.expr) (F.post self.now.expr) }
        ensures { Reads exp (spec.expr self.now.depth tokens.old) result tokens.new }
    {
        let x = self.whole(tokens)?;
        Ok(Boxed::new(self.alloc, x)?)
    }

    /// What stands under a sign, one level deeper.
    pub(crate) fn operand(&self, tokens: &mut Cursor<'_>) -> Result<Expr, Refusal>
        requires { Nests self.now.depth (F.pre self.now.expr) (F.post self.now.expr) }
        ensures { Reads exp (spec.operand self.now.depth tokens.old) result tokens.new }
    {
        (self.expr)(self.alloc, tokens, self.depth, true)
    }

    #[tactic(auto, unfolding(crate::specs::Model::args))]
    pub(crate) fn args(&self, tokens: &mut Cursor<'_>, close: Sign) -> Result<Items<Expr>, Refusal>
        requires { Nests self.now.depth (F.pre self.now.expr) (F.post self.now.expr) }
        ensures { Reads (map exp) (spec.args (spec.expr self.now.depth) close tokens.old) result tokens.new }
    {
        let mut found = Items::new(self.alloc);
        if tokens.eat(close) {
            return Ok(found);
        }
        found.push(self.whole(tokens)?)?;
        self.more(tokens, close, found)
    }

    #[tactic(auto, unfolding(crate::specs::Model::more_from))]
    fn more(
        &self,
        tokens: &mut Cursor<'_>,
        close: Sign,
        mut found: Items<Expr>,
    ) -> Result<Items<Expr>, Refusal>
        requires { Nests self.now.depth (F.pre self.now.expr) (F.post self.now.expr) }
        ensures { Reads (map exp) (spec.more_from (spec.expr self.now.depth) close (length tokens.old) (map exp found) tokens.old) result tokens.new }
    {
        for _turn in 0..tokens.left() {
            if tokens.eat(close) {
                return Ok(found);
            }
            tokens.expect(Sign::Comma)?;
            if tokens.eat(close) {
                return Ok(found);
            }
            found.push(self.whole(tokens)?)?;
        }
        Err(tokens.refuse())
    }
}

/// An expression of at most so many levels, or what stands under a sign.
#[tactic(auto, unfolding(crate::specs::Model::expr, crate::specs::Model::operand))]
pub fn expr(
    alloc: Global,
    tokens: &mut Cursor<'_>,
    depth: usize,
    under_sign: bool,
) -> Result<Expr, Refusal>
    ensures { Reads exp (parser_at depth under_sign tokens.old) result tokens.new }
{
    if depth == 0 {
        let next = tokens.peek();
        return Err(tokens.too_deep(if under_sign {
            begins_under(next)
        } else {
            begins(next)
        }));
    }
    let grammar = Grammar {
        alloc,
        depth: depth - 1,
        expr,
    };
    if under_sign {
        grammar.under(tokens)
    } else {
        grammar.expression(tokens)
    }
}

/// Arguments whose expressions have at most so many levels.
pub fn args(
    alloc: Global,
    tokens: &mut Cursor<'_>,
    depth: usize,
    close: Sign,
) -> Result<Items<Expr>, Refusal>
    ensures { Reads (map exp) (spec.args (spec.expr depth) close tokens.old) result tokens.new }
{
    Grammar { alloc, depth, expr }.args(tokens, close)
}
