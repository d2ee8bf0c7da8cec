//! Primary expressions.

ghost use Rattle.std.specs.Prelude.{◌≡◌, ◌-◌, ◌<◌, length, map, option_map, IfOk};
ghost use Rattle.dart_syntax.specs.Syntax.{selectors};
ghost use Rattle.dart_syntax.specs.View.{exp, link, piece, selector};
ghost use Rattle.dart_syntax.specs.Grammar.{is_target, written, last_is_written};
ghost use Rattle.dart_expr.specs.Input.{Reads};
ghost use Rattle.dart_expr.specs.Model as spec;
ghost use Rattle.dart_expr.specs.Nests.{Nests, parser_at};

use crate::cursor::Cursor;
use crate::grammar::Grammar;
use crate::names::{copied, copied_units, name};
use crate::refusal::Refusal;
use dart_syntax::token::{Identifier, Keyword, Sign, TokenKind, Units};
use dart_syntax::tree::{Expr, Name, Piece};
use ds_base::let_go;
use sqlite_items::Items;
use std::alloc::Global;

/// An expression of a string, and the text behind it, which is the next token.
fn piece_of(
    alloc: Global,
    tokens: &mut Cursor<'_>,
    value: Expr,
    units: &Units,
    is_last: bool,
) -> Result<(Piece<Expr>, bool), Refusal>
    ensures { Reads (λ r. (piece r.0, r.1)) (spec.piece_of (exp value) units.now is_last tokens.old) result tokens.new }
{
    match copied_units(alloc, units) {
        Ok(then) => {
            let span = tokens.take();
            Ok((Piece { value, then, span }, is_last))
        }
        Err(_) => {
            let_go(value);
            Err(Refusal::NoMemory)
        }
    }
}

impl<F: Fn(Global, &mut Cursor<'_>, usize, bool) -> Result<Expr, Refusal>> Grammar<F> {
    #[tactic(auto, unfolding(crate::specs::Model::piece))]
    fn piece(&self, tokens: &mut Cursor<'_>) -> Result<(Piece<Expr>, bool), Refusal>
        requires { Nests self.now.depth (F.pre self.now.expr) (F.post self.now.expr) }
        ensures { Reads (λ r. (piece r.0, r.1)) (spec.piece (spec.expr self.now.depth) tokens.old) result tokens.new }
    {
        let value = self.whole(tokens)?;
        match tokens.peek() {
            Some(TokenKind::StrMid(units)) => piece_of(self.alloc, tokens, value, units, false),
            Some(TokenKind::StrClose(units)) => piece_of(self.alloc, tokens, value, units, true),
            _ => {
                let_go(value);
                Err(tokens.refuse())
            }
        }
    }

    #[tactic(auto, unfolding(crate::specs::Model::pieces))]
    fn pieces(&self, tokens: &mut Cursor<'_>) -> Result<Items<Piece<Expr>>, Refusal>
        requires { Nests self.now.depth (F.pre self.now.expr) (F.post self.now.expr) }
        ensures { Reads (map piece) (spec.pieces (spec.expr self.now.depth) tokens.old) result tokens.new }
    {
        let mut found = Items::new(self.alloc);
        for _turn in 0..tokens.left() {
            let (piece, is_last) = self.piece(tokens)?;
            found.push(piece)?;
            if is_last {
                return Ok(found);
            }
        }
        Err(tokens.refuse())
    }

    #[tactic(auto, unfolding(crate::specs::Model::named_term))]
    fn named_term(&self, tokens: &mut Cursor<'_>, text: &Identifier) -> Result<Expr, Refusal>
        requires { Nests self.now.depth (F.pre self.now.expr) (F.post self.now.expr) }
        ensures { Reads exp (spec.named_term (spec.expr self.now.depth) text.now tokens.old) result tokens.new }
    {
        let name = Name {
            text: copied(self.alloc, text)?,
            span: tokens.take(),
        };
        if tokens.eat(Sign::ParenOpen) {
            Ok(Expr::Call(name, self.args(tokens, Sign::ParenClose)?))
        } else {
            Ok(Expr::Name(name))
        }
    }

    #[tactic(auto, unfolding(crate::specs::Model::joined))]
    fn joined(&self, tokens: &mut Cursor<'_>, units: &Units) -> Result<Expr, Refusal>
        requires { Nests self.now.depth (F.pre self.now.expr) (F.post self.now.expr) }
        ensures { Reads exp (spec.joined (spec.expr self.now.depth) units.now tokens.old) result tokens.new }
    {
        let units = copied_units(self.alloc, units)?;
        let at = tokens.take();
        Ok(Expr::Joined(units, at, self.pieces(tokens)?))
    }

    #[tactic(auto, unfolding(crate::specs::Model::super_term))]
    fn super_term(&self, tokens: &mut Cursor<'_>) -> Result<Expr, Refusal>
        requires { Nests self.now.depth (F.pre self.now.expr) (F.post self.now.expr) }
        ensures { Reads exp (spec.super_term (spec.expr self.now.depth) tokens.old) result tokens.new }
    {
        let at = tokens.take();
        tokens.expect(Sign::Dot)?;
        let name = name(self.alloc, tokens)?;
        if tokens.eat(Sign::ParenOpen) {
            Ok(Expr::SuperCall(at, name, self.args(tokens, Sign::ParenClose)?))
        } else {
            Ok(Expr::SuperGet(at, name))
        }
    }

    #[tactic(auto, unfolding(crate::specs::Model::parenthesized))]
    fn parenthesized(&self, tokens: &mut Cursor<'_>) -> Result<Expr, Refusal>
        requires { Nests self.now.depth (F.pre self.now.expr) (F.post self.now.expr) }
        ensures { Reads exp (spec.parenthesized (spec.expr self.now.depth) tokens.old) result tokens.new }
    {
        tokens.skip();
        let inner = self.boxed_whole(tokens)?;
        tokens.expect(Sign::ParenClose)?;
        Ok(Expr::Paren(inner))
    }

    #[tactic(auto, unfolding(crate::specs::Model::list))]
    fn list(&self, tokens: &mut Cursor<'_>) -> Result<Expr, Refusal>
        requires { Nests self.now.depth (F.pre self.now.expr) (F.post self.now.expr) }
        ensures { Reads exp (spec.list (spec.expr self.now.depth) tokens.old) result tokens.new }
    {
        let at = tokens.take();
        Ok(Expr::List(at, self.args(tokens, Sign::BracketClose)?))
    }

    #[tactic(auto, unfolding(crate::specs::Model::primary))]
    pub(crate) fn primary(&self, tokens: &mut Cursor<'_>) -> Result<Expr, Refusal>
        requires { Nests self.now.depth (F.pre self.now.expr) (F.post self.now.expr) }
        ensures { Reads exp (spec.primary (spec.expr self.now.depth) tokens.old) result tokens.new }
    {
        match tokens.peek() {
            Some(TokenKind::Keyword(Keyword::Null)) => Ok(Expr::Null(tokens.take())),
            Some(TokenKind::Keyword(Keyword::True)) => Ok(Expr::Bool(true, tokens.take())),
            Some(TokenKind::Keyword(Keyword::False)) => Ok(Expr::Bool(false, tokens.take())),
            Some(TokenKind::Keyword(Keyword::This)) => Ok(Expr::This(tokens.take())),
            Some(TokenKind::Keyword(Keyword::Super)) => self.super_term(tokens),
            Some(TokenKind::Int(n)) => Ok(Expr::Int(*n, tokens.take())),
            Some(TokenKind::Str(units)) => {
                let units = copied_units(self.alloc, units)?;
                Ok(Expr::Str(units, tokens.take()))
            }
            Some(TokenKind::StrOpen(units)) => self.joined(tokens, units),
            Some(TokenKind::Name(text)) => self.named_term(tokens, text),
            Some(TokenKind::Sign(Sign::ParenOpen)) => self.parenthesized(tokens),
            Some(TokenKind::Sign(Sign::BracketOpen)) => self.list(tokens),
            _ => Err(tokens.refuse()),
        }
    }
}
