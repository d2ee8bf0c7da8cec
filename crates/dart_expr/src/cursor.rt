//! A place in a list of tokens.

ghost use Rattle.std.specs.Prelude.{◌≡◌, length};
ghost use Rattle.std.specs.Option.{option_copied};
ghost use Rattle.dart_expr.specs.Input as spec;
ghost use Rattle.dart_expr.specs.Input.{Reads, is_end};

use crate::refusal::Refusal;
use dart_syntax::token::{Keyword, Sign, Span, Token, TokenKind};
use std::marker::Model;

#[derive(Drop)]
pub struct Cursor<'a> {
    rest: &'a [Token],
}

impl<'a> Model for Cursor<'a> {
    ghost use Rattle.dart_syntax.specs.Words.{Tokens};

    ghost Value = { Tokens };

    ghost view = { λ c. c.rest.now };
}

const NOWHERE: Span = Span { start: 0, end: 0 };

impl<'a> Cursor<'a> {
    pub fn new(rest: &'a [Token]) -> Cursor<'a>
        ensures { result ≡ rest.now }
    {
        Cursor { rest }
    }

    /// How many tokens are left.
    pub fn left(&self) -> usize
        ensures { result ≡ length self.now }
    {
        self.rest.len()
    }

    /// What the next token is.
    pub fn peek(&self) -> Option<&'a TokenKind>
        ensures { option_copied result ≡ spec.kind self.now }
    {
        match self.rest {
            [first, ..] => Some(&first.kind),
            [] => None,
        }
    }

    #[tactic(auto, unfolding(crate::specs::Input::sees, crate::specs::Input::same))]
    pub fn sees(&self, sign: Sign) -> bool
        ensures { result ≡ spec.sees sign self.now }
    {
        match self.peek() {
            Some(TokenKind::Sign(next)) => *next == sign,
            _ => false,
        }
    }

    #[tactic(auto, unfolding(crate::specs::Input::sees_keyword, crate::specs::Input::same_keyword))]
    pub fn sees_keyword(&self, keyword: Keyword) -> bool
        ensures { result ≡ spec.sees_keyword keyword self.now }
    {
        match self.peek() {
            Some(TokenKind::Keyword(next)) => *next == keyword,
            _ => false,
        }
    }

    #[tactic(auto, unfolding(crate::specs::Input::is_end))]
    pub fn is_end(&self) -> bool
        ensures { result ≡ is_end self.now }
    {
        matches!(self.peek(), Some(TokenKind::End))
    }

    pub fn refuse(&self) -> Refusal
        ensures { result ≡ spec.refusal self.now }
    {
        Refusal::Syntax(self.left())
    }

    /// The refusal of what would nest too deep here, if the next token begins it.
    pub fn too_deep(&self, begins: bool) -> Refusal
        ensures { result ≡ spec.deep begins self.now }
    {
        if begins {
            Refusal::TooDeep(self.left())
        } else {
            self.refuse()
        }
    }

    /// Where the next token stands.
    pub fn span(&self) -> Span
        ensures { result ≡ spec.span self.now }
    {
        match self.rest {
            [first, ..] => first.span,
            [] => NOWHERE,
        }
    }

    pub fn skip(&mut self)
        ensures { self.new ≡ spec.next self.old }
    {
        if let [_, rest @ ..] = self.rest {
            self.rest = rest;
        }
    }

    pub fn take(&mut self) -> Span
        ensures span { result ≡ spec.span self.old }
        ensures next { self.new ≡ spec.next self.old }
    {
        let span = self.span();
        self.skip();
        span
    }

    #[tactic(auto, unfolding(crate::specs::Input::after))]
    pub fn eat(&mut self, sign: Sign) -> bool
        ensures value { result ≡ spec.sees sign self.old }
        ensures next { self.new ≡ spec.after sign self.old }
    {
        let found = self.sees(sign);
        if found {
            self.skip();
        }
        found
    }

    #[tactic(auto, unfolding(crate::specs::Input::after_keyword))]
    pub fn eat_keyword(&mut self, keyword: Keyword) -> bool
        ensures value { result ≡ spec.sees_keyword keyword self.old }
        ensures next { self.new ≡ spec.after_keyword keyword self.old }
    {
        let found = self.sees_keyword(keyword);
        if found {
            self.skip();
        }
        found
    }

    #[tactic(auto, unfolding(crate::specs::Input::expect))]
    pub fn expect(&mut self, sign: Sign) -> Result<Span, Refusal>
        ensures { Reads (λ at. at) (spec.expect sign self.old) result self.new }
    {
        if !self.sees(sign) {
            return Err(self.refuse());
        }
        Ok(self.take())
    }
}
