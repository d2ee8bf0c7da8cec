//! Statements: each rule takes the parser of the statements one level deeper as a parameter.

ghost use Rattle.std.specs.Prelude.{[], length, map, option_map};
ghost use Rattle.dart_syntax.specs.View.{exp, first_part, local, sta};
ghost use Rattle.dart_expr.specs.Input.{Reads, sees, many_from};
ghost use Rattle.dart_expr.specs.Model.{expr};
ghost use Rattle.dart_parser.specs.Nests.{NestsStmt};
ghost use Rattle.dart_parser.specs.Statements as spec;

use crate::firsts::begins_stmt;
use dart_expr::Refusal;
use dart_expr::cursor::Cursor;
use dart_expr::grammar::expr;
use dart_syntax::token::{Keyword, Sign, TokenKind};
use dart_syntax::tree::{Expr, First, Stmt};
use ds_base::let_go;
use sqlite_items::{Boxed, Items};
use std::alloc::Global;

#[derive(Clone, Copy)]
pub struct Statements<F> {
    pub alloc: Global,
    /// How many levels statements and expressions may still nest.
    pub depth: usize,
    pub stmt: F,
}

impl<F: Fn(Global, &mut Cursor<'_>, usize) -> Result<Stmt, Refusal>> Statements<F> {
    fn inner(&self, tokens: &mut Cursor<'_>) -> Result<Stmt, Refusal>
        requires { NestsStmt self.now.depth (F.pre self.now.stmt) (F.post self.now.stmt) }
        ensures { Reads sta (spec.stmt self.now.depth tokens.old) result tokens.new }
    {
        (self.stmt)(self.alloc, tokens, self.depth)
    }

    fn boxed_inner(&self, tokens: &mut Cursor<'_>) -> Result<Boxed<Stmt>, Refusal>
        requires { NestsStmt self.now.depth (F.pre self.now.stmt) (F.post self.now.stmt) }
        ensures { Reads sta (spec.stmt self.now.depth tokens.old) result tokens.new }
    {
        let x = self.inner(tokens)?;
        Ok(Boxed::new(self.alloc, x)?)
    }

    pub(crate) fn whole(&self, tokens: &mut Cursor<'_>) -> Result<Expr, Refusal>
        ensures { Reads exp (expr self.now.depth tokens.old) result tokens.new }
    {
        expr(self.alloc, tokens, self.depth, false)
    }

    #[tactic(auto, unfolding(crate::specs::Statements::item))]
    fn item(&self, tokens: &mut Cursor<'_>) -> Result<Option<Stmt>, Refusal>
        requires { NestsStmt self.now.depth (F.pre self.now.stmt) (F.post self.now.stmt) }
        ensures { Reads (option_map sta) (spec.item (sees Sign.BraceClose) (spec.stmt self.now.depth) tokens.old) result tokens.new }
    {
        if tokens.sees(Sign::BraceClose) {
            return Ok(None);
        }
        Ok(Some(self.inner(tokens)?))
    }

    fn items(&self, tokens: &mut Cursor<'_>) -> Result<Items<Stmt>, Refusal>
        requires { NestsStmt self.now.depth (F.pre self.now.stmt) (F.post self.now.stmt) }
        ensures { Reads (map sta) (many_from (spec.item (sees Sign.BraceClose) (spec.stmt self.now.depth)) (length tokens.old) [] tokens.old) result tokens.new }
    {
        // Most blocks are short: room for one statement keeps deep nesting small.
        let mut found = Items::from_vec(Vec::with_capacity(self.alloc, 1)?);
        for _turn in 0..tokens.left() {
            match self.item(tokens)? {
                Some(statement) => found.push(statement)?,
                None => return Ok(found),
            }
        }
        Ok(found)
    }

    #[tactic(auto, unfolding(crate::specs::Statements::block))]
    fn block(&self, tokens: &mut Cursor<'_>) -> Result<Stmt, Refusal>
        requires { NestsStmt self.now.depth (F.pre self.now.stmt) (F.post self.now.stmt) }
        ensures { Reads sta (spec.block (spec.stmt self.now.depth) (expr self.now.depth) tokens.old) result tokens.new }
    {
        tokens.skip();
        let found = self.items(tokens)?;
        tokens.expect(Sign::BraceClose)?;
        Ok(Stmt::Block(found))
    }

    /// In parentheses, behind a keyword.
    #[tactic(auto, unfolding(crate::specs::Statements::condition))]
    fn condition(&self, tokens: &mut Cursor<'_>) -> Result<Expr, Refusal>
        ensures { Reads exp (spec.condition (spec.stmt self.now.depth) (expr self.now.depth) tokens.old) result tokens.new }
    {
        tokens.skip();
        tokens.expect(Sign::ParenOpen)?;
        let test = self.whole(tokens)?;
        match tokens.expect(Sign::ParenClose) {
            Ok(_) => Ok(test),
            Err(refusal) => {
                let_go(test);
                Err(refusal)
            }
        }
    }

    #[tactic(auto, using(crate::proofs::View::sta_when, crate::proofs::View::sta_when_else), unfolding(crate::specs::Statements::branches))]
    fn branches(&self, tokens: &mut Cursor<'_>) -> Result<Stmt, Refusal>
        requires { NestsStmt self.now.depth (F.pre self.now.stmt) (F.post self.now.stmt) }
        ensures { Reads sta (spec.branches (spec.stmt self.now.depth) (expr self.now.depth) tokens.old) result tokens.new }
    {
        let test = self.condition(tokens)?;
        let then = match self.boxed_inner(tokens) {
            Ok(then) => then,
            Err(refusal) => {
                let_go(test);
                return Err(refusal);
            }
        };
        if !tokens.eat_keyword(Keyword::Else) {
            return Ok(Stmt::If(test, then, None));
        }
        match self.boxed_inner(tokens) {
            Ok(other) => Ok(Stmt::If(test, then, Some(other))),
            Err(refusal) => {
                let_go(test);
                Err(refusal)
            }
        }
    }

    #[tactic(auto, unfolding(crate::specs::Statements::repeated))]
    fn repeated(&self, tokens: &mut Cursor<'_>) -> Result<Stmt, Refusal>
        requires { NestsStmt self.now.depth (F.pre self.now.stmt) (F.post self.now.stmt) }
        ensures { Reads sta (spec.repeated (spec.stmt self.now.depth) (expr self.now.depth) tokens.old) result tokens.new }
    {
        let test = self.condition(tokens)?;
        match self.boxed_inner(tokens) {
            Ok(body) => Ok(Stmt::While(test, body)),
            Err(refusal) => {
                let_go(test);
                Err(refusal)
            }
        }
    }

    #[tactic(auto, unfolding(crate::specs::Statements::do_repeated))]
    fn do_repeated(&self, tokens: &mut Cursor<'_>) -> Result<Stmt, Refusal>
        requires { NestsStmt self.now.depth (F.pre self.now.stmt) (F.post self.now.stmt) }
        ensures { Reads sta (spec.do_repeated (spec.stmt self.now.depth) (expr self.now.depth) tokens.old) result tokens.new }
    {
        tokens.skip();
        let body = self.boxed_inner(tokens)?;
        if !tokens.sees_keyword(Keyword::While) {
            return Err(tokens.refuse());
        }
        let test = self.condition(tokens)?;
        match tokens.expect(Sign::Semicolon) {
            Ok(_) => Ok(Stmt::Do(body, test)),
            Err(refusal) => {
                let_go(test);
                Err(refusal)
            }
        }
    }

    #[tactic(auto, unfolding(crate::specs::Statements::counted))]
    fn counted(&self, tokens: &mut Cursor<'_>) -> Result<Stmt, Refusal>
        requires { NestsStmt self.now.depth (F.pre self.now.stmt) (F.post self.now.stmt) }
        ensures { Reads sta (spec.counted (spec.stmt self.now.depth) (expr self.now.depth) tokens.old) result tokens.new }
    {
        tokens.skip();
        tokens.expect(Sign::ParenOpen)?;
        let first = self.first(tokens)?;
        let test = match self.valued(tokens) {
            Ok(test) => test,
            Err(refusal) => {
                let_go(first);
                return Err(refusal);
            }
        };
        match self.last(tokens) {
            Ok(last) => self.counted_by(tokens, first, test, last),
            Err(refusal) => {
                let_go(first);
                let_go(test);
                Err(refusal)
            }
        }
    }

    #[tactic(auto, unfolding(crate::specs::Statements::counted_by))]
    fn counted_by(
        &self,
        tokens: &mut Cursor<'_>,
        first: First,
        test: Option<Expr>,
        last: Items<Expr>,
    ) -> Result<Stmt, Refusal>
        requires { NestsStmt self.now.depth (F.pre self.now.stmt) (F.post self.now.stmt) }
        ensures { Reads sta (spec.counted_by (spec.stmt self.now.depth) (expr self.now.depth) (first_part first) (option_map exp test) (map exp last) tokens.old) result tokens.new }
    {
        match self.boxed_inner(tokens) {
            Ok(body) => Ok(Stmt::For(first, test, last, body)),
            Err(refusal) => {
                let_go(first);
                let_go(test);
                Err(refusal)
            }
        }
    }

    #[tactic(auto, unfolding(crate::specs::Statements::broken))]
    fn broken(&self, tokens: &mut Cursor<'_>) -> Result<Stmt, Refusal>
        ensures { Reads sta (spec.broken (spec.stmt self.now.depth) (expr self.now.depth) tokens.old) result tokens.new }
    {
        let at = tokens.take();
        tokens.expect(Sign::Semicolon)?;
        Ok(Stmt::Break(at))
    }

    #[tactic(auto, unfolding(crate::specs::Statements::continued))]
    fn continued(&self, tokens: &mut Cursor<'_>) -> Result<Stmt, Refusal>
        ensures { Reads sta (spec.continued (spec.stmt self.now.depth) (expr self.now.depth) tokens.old) result tokens.new }
    {
        let at = tokens.take();
        tokens.expect(Sign::Semicolon)?;
        Ok(Stmt::Continue(at))
    }

    #[tactic(auto, unfolding(crate::specs::Statements::returned))]
    fn returned(&self, tokens: &mut Cursor<'_>) -> Result<Stmt, Refusal>
        ensures { Reads sta (spec.returned (spec.stmt self.now.depth) (expr self.now.depth) tokens.old) result tokens.new }
    {
        let at = tokens.take();
        Ok(Stmt::Return(at, self.valued(tokens)?))
    }

    #[tactic(auto, unfolding(crate::specs::Statements::statement))]
    fn statement(&self, tokens: &mut Cursor<'_>) -> Result<Stmt, Refusal>
        requires { NestsStmt self.now.depth (F.pre self.now.stmt) (F.post self.now.stmt) }
        ensures { Reads sta (spec.statement (spec.stmt self.now.depth) (expr self.now.depth) tokens.old) result tokens.new }
    {
        match tokens.peek() {
            Some(TokenKind::Sign(Sign::BraceOpen)) => self.block(tokens),
            Some(TokenKind::Sign(Sign::Semicolon)) => {
                tokens.skip();
                Ok(Stmt::Empty)
            }
            Some(TokenKind::Keyword(Keyword::Var | Keyword::Dynamic | Keyword::Final)) => {
                Ok(Stmt::Local(self.local(tokens)?))
            }
            Some(TokenKind::Keyword(Keyword::If)) => self.branches(tokens),
            Some(TokenKind::Keyword(Keyword::While)) => self.repeated(tokens),
            Some(TokenKind::Keyword(Keyword::Do)) => self.do_repeated(tokens),
            Some(TokenKind::Keyword(Keyword::For)) => self.counted(tokens),
            Some(TokenKind::Keyword(Keyword::Break)) => self.broken(tokens),
            Some(TokenKind::Keyword(Keyword::Continue)) => self.continued(tokens),
            Some(TokenKind::Keyword(Keyword::Return)) => self.returned(tokens),
            _ => Ok(Stmt::Run(self.ended(tokens)?)),
        }
    }
}

/// A statement of at most so many levels.
#[tactic(auto, unfolding(crate::specs::Statements::stmt))]
pub fn stmt(alloc: Global, tokens: &mut Cursor<'_>, depth: usize) -> Result<Stmt, Refusal>
    ensures { Reads sta (spec.stmt depth tokens.old) result tokens.new }
{
    if depth == 0 {
        return Err(tokens.too_deep(begins_stmt(tokens.peek())));
    }
    Statements {
        alloc,
        depth: depth - 1,
        stmt,
    }
    .statement(tokens)
}
