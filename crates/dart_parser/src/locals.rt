//! Expressions and locals that statements hold.

ghost use Rattle.std.specs.Prelude.{map, option_map};
ghost use Rattle.dart_syntax.specs.View.{exp, first_part, local};
ghost use Rattle.dart_expr.specs.Input.{Reads};
ghost use Rattle.dart_expr.specs.Model.{expr};
ghost use Rattle.dart_parser.specs.Statements as spec;

use crate::statement::Statements;
use dart_expr::Refusal;
use dart_expr::cursor::Cursor;
use dart_expr::names::name;
use dart_syntax::token::{Keyword, Sign, TokenKind};
use dart_syntax::tree::{Expr, First, Local, Stmt};
use ds_base::let_go;
use sqlite_items::Items;
use std::alloc::Global;

impl<F: Fn(Global, &mut Cursor<'_>, usize) -> Result<Stmt, Refusal>> Statements<F> {
    #[tactic(auto, unfolding(crate::specs::Statements::ended))]
    pub(crate) fn ended(&self, tokens: &mut Cursor<'_>) -> Result<Expr, Refusal>
        ensures { Reads exp (spec.ended (spec.stmt self.now.depth) (expr self.now.depth) tokens.old) result tokens.new }
    {
        let x = self.whole(tokens)?;
        match tokens.expect(Sign::Semicolon) {
            Ok(_) => Ok(x),
            Err(refusal) => {
                let_go(x);
                Err(refusal)
            }
        }
    }

    #[tactic(auto, unfolding(crate::specs::Statements::valued))]
    pub(crate) fn valued(&self, tokens: &mut Cursor<'_>) -> Result<Option<Expr>, Refusal>
        ensures { Reads (option_map exp) (spec.valued (spec.stmt self.now.depth) (expr self.now.depth) tokens.old) result tokens.new }
    {
        if tokens.eat(Sign::Semicolon) {
            return Ok(None);
        }
        Ok(Some(self.ended(tokens)?))
    }

    #[tactic(auto, unfolding(crate::specs::Statements::initial))]
    fn initial(&self, tokens: &mut Cursor<'_>) -> Result<Option<Expr>, Refusal>
        ensures { Reads (option_map exp) (spec.initial (spec.stmt self.now.depth) (expr self.now.depth) tokens.old) result tokens.new }
    {
        if tokens.eat(Sign::Semicolon) {
            return Ok(None);
        }
        tokens.expect(Sign::Assign)?;
        Ok(Some(self.ended(tokens)?))
    }

    #[tactic(auto, unfolding(crate::specs::Statements::variable))]
    fn variable(&self, tokens: &mut Cursor<'_>) -> Result<Local, Refusal>
        ensures { Reads local (spec.variable (spec.stmt self.now.depth) (expr self.now.depth) tokens.old) result tokens.new }
    {
        tokens.skip();
        let name = name(self.alloc, tokens)?;
        Ok(Local {
            is_final: false,
            name,
            value: self.initial(tokens)?,
        })
    }

    #[tactic(auto, unfolding(crate::specs::Statements::constant))]
    fn constant(&self, tokens: &mut Cursor<'_>) -> Result<Local, Refusal>
        ensures { Reads local (spec.constant (spec.stmt self.now.depth) (expr self.now.depth) tokens.old) result tokens.new }
    {
        tokens.skip();
        let name = name(self.alloc, tokens)?;
        tokens.expect(Sign::Assign)?;
        Ok(Local {
            is_final: true,
            name,
            value: Some(self.ended(tokens)?),
        })
    }

    #[tactic(auto, unfolding(crate::specs::Statements::local))]
    pub(crate) fn local(&self, tokens: &mut Cursor<'_>) -> Result<Local, Refusal>
        ensures { Reads local (spec.local (spec.stmt self.now.depth) (expr self.now.depth) tokens.old) result tokens.new }
    {
        match tokens.peek() {
            Some(TokenKind::Keyword(Keyword::Final)) => self.constant(tokens),
            _ => self.variable(tokens),
        }
    }

    /// The first part of a `for`.
    #[tactic(auto, unfolding(crate::specs::Statements::first))]
    pub(crate) fn first(&self, tokens: &mut Cursor<'_>) -> Result<First, Refusal>
        ensures { Reads first_part (spec.first (spec.stmt self.now.depth) (expr self.now.depth) tokens.old) result tokens.new }
    {
        match tokens.peek() {
            Some(TokenKind::Sign(Sign::Semicolon)) => {
                tokens.skip();
                Ok(First::Nothing)
            }
            Some(TokenKind::Keyword(Keyword::Var | Keyword::Dynamic | Keyword::Final)) => {
                Ok(First::Local(self.local(tokens)?))
            }
            _ => Ok(First::Run(self.ended(tokens)?)),
        }
    }

    #[tactic(auto, unfolding(crate::specs::Statements::comma_item))]
    fn comma_item(&self, tokens: &mut Cursor<'_>) -> Result<Option<Expr>, Refusal>
        ensures { Reads (option_map exp) (spec.comma_item (spec.stmt self.now.depth) (expr self.now.depth) tokens.old) result tokens.new }
    {
        if !tokens.eat(Sign::Comma) {
            return Ok(None);
        }
        Ok(Some(self.whole(tokens)?))
    }

    #[tactic(auto, unfolding(crate::specs::Statements::comma_items))]
    fn comma_items(
        &self,
        tokens: &mut Cursor<'_>,
        mut found: Items<Expr>,
    ) -> Result<Items<Expr>, Refusal>
        ensures { Reads (map exp) (spec.comma_items (spec.stmt self.now.depth) (expr self.now.depth) (map exp found) tokens.old) result tokens.new }
    {
        for _turn in 0..tokens.left() {
            match self.comma_item(tokens)? {
                Some(x) => found.push(x)?,
                None => return Ok(found),
            }
        }
        Ok(found)
    }

    /// The last part of a `for`, and the parenthesis.
    #[tactic(auto, unfolding(crate::specs::Statements::last))]
    pub(crate) fn last(&self, tokens: &mut Cursor<'_>) -> Result<Items<Expr>, Refusal>
        ensures { Reads (map exp) (spec.last (spec.stmt self.now.depth) (expr self.now.depth) tokens.old) result tokens.new }
    {
        let mut found = Items::new(self.alloc);
        if tokens.eat(Sign::ParenClose) {
            return Ok(found);
        }
        found.push(self.whole(tokens)?)?;
        let found = self.comma_items(tokens, found)?;
        tokens.expect(Sign::ParenClose)?;
        Ok(found)
    }
}
