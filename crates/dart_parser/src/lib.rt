//! Reads the tree of a list of tokens.
#![tactic(auto)]

ghost use Rattle.std.specs.Prelude.{◌≡◌, IfOk, MatchResult};
ghost use Rattle.dart_syntax.specs.Derivation.{Derives};
ghost use Rattle.dart_syntax.specs.Syntax as tree;
ghost use Rattle.dart_syntax.specs.View as view;

mod bodies;
mod class;
mod error;
mod firsts;
mod literals;
mod locals;
mod member;
mod metas;
mod operators;
mod params;
mod statement;
mod top;

use crate::error::placed;
use crate::top::whole_unit;
pub use bodies::LEVELS;
use dart_expr::cursor::Cursor;
pub use dart_printer::print_tree;
use dart_syntax::token::Token;
use dart_syntax::tree::Tree;
pub use error::ParseError;
use std::alloc::Global;

/// The tree of the list.
pub fn parse(alloc: Global, list: &[Token]) -> Result<Tree, ParseError>
    // What is read is a tree of the list.
    ensures tree { IfOk result (λ t. Derives list.now (view.unit t)) }
    // Each tree of the list is that one, and a list that has one is refused only for want of memory.
    ensures only { (t : tree.Tree) → Derives list.now t → MatchResult result (λ u. view.unit u ≡ t) (λ e. e ≡ ParseError.NoMemory) }
{
    match whole_unit(alloc, &mut Cursor::new(list)) {
        Ok(tops) => Ok(Tree { tops }),
        Err(refusal) => Err(placed(list.len(), refusal)),
    }
}
