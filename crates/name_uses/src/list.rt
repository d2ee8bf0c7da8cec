//! The list of uses.

ghost use Rattle.std.specs.Prelude.{◌≡◌, ◌++◌, ◌∷◌, [], OnOk, map};
ghost use Rattle.name_uses.specs.Using.{used};

use dart_meaning::Seen;
use dart_syntax::token::Span;
use dart_syntax::tree::{Name, Unary};
use program::BinaryOperator;
use std::alloc::{AllocError, Global};
use std::marker::Model;

/// A use, with the name or the place where it stands.
#[derive(Drop)]
pub enum Use<'a> {
    Reads(&'a Name, Option<Seen>),
    Writes(&'a Name, Option<Seen>),
    Calls(&'a Name, Option<Seen>, usize),
    This(Span),
    SuperReads(Span, &'a Name),
    SuperWrites(Span, &'a Name),
    SuperCalls(Span, &'a Name, usize),
    MemberReads(&'a Name),
    MemberWrites(&'a Name),
    MemberCalls(&'a Name, usize),
    IndexReads(Span),
    IndexWrites(Span),
    Operates(BinaryOperator, Span),
    Prefixes(Unary, Span),
    /// An interpolation.
    Shows(Span),
    NamesClass(&'a Name),
    /// A local, and what its name means outside of its block.
    Declares(&'a Name, Option<Seen>),
    /// Whether a loop is open.
    LeavesLoop(Span, bool),
    ReturnsValue(Span),
    SetsField(&'a Name),
    EntersSuper(Span, usize),
}

/// The uses that were found so far.
#[derive(Drop)]
pub struct Uses<'a> {
    list: Vec<Use<'a>>,
}

impl<'a> Model for Uses<'a> {
    ghost use Rattle.std.specs.Prelude.{List};
    ghost use Rattle.name_uses.specs.Using.{all_used};
    ghost use Rattle.dart_meaning.specs.Uses as u;

    ghost Value = { List u.Use };

    ghost view = { λ a. all_used a.list.items };
}

impl<'a> Uses<'a> {
    pub fn as_slice(&self) -> &[Use<'a>]
        ensures { map used result.now ≡ self.now }
    {
        self.list.as_slice()
    }

    pub fn new(alloc: Global) -> Uses<'a>
        ensures { result ≡ [] }
    {
        Uses {
            list: Vec::new(alloc),
        }
    }

    pub fn push(&mut self, one: Use<'a>) -> Result<(), AllocError>
        ensures { OnOk result (self.new ≡ self.old ++ used one.entry ∷ []) }
    {
        self.list.push(one)?;
        Ok(())
    }
}
