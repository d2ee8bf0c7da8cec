//! What is open at a place of the text.

ghost use Rattle.std.specs.Prelude.{◌≡◌, [], ◌∷◌, reverse, OnOk, MatchOption};
ghost use Rattle.dart_syntax.specs.Tokens.{inside};

use dart_syntax::Open;
use std::alloc::{AllocError, Global};
use std::marker::Model;

/// The innermost first.
#[derive(Drop)]
pub struct Stack {
    items: Vec<Open>,
}

impl Model for Stack {
    ghost use Rattle.std.specs.Prelude.{List, reverse};
    ghost use Rattle.dart_syntax.specs.declared.open.Open.{Open};

    ghost Value = { List Open };

    ghost view = { λ s. reverse s.items.items };
}

impl Stack {
    pub fn new(alloc: Global) -> Stack
        ensures { result ≡ [] }
    {
        Stack {
            items: Vec::new(alloc),
        }
    }

    pub fn push(&mut self, inner: Open) -> Result<(), AllocError>
        ensures { OnOk result (self.new ≡ inner ∷ self.old) }
    {
        self.items.push(inner)?;
        Ok(())
    }

    pub fn pop(&mut self) -> Option<Open>
        ensures { MatchOption result ((self.old ≡ []) × (self.new ≡ [])) (λ inner. self.old ≡ inner ∷ self.new) }
    {
        self.items.pop()
    }

    /// Where the innermost string begins.
    pub fn inside(&self) -> Option<usize>
        ensures { result ≡ inside self.now }
    {
        innermost(&self.items)
    }
}

#[tactic(auto, using(crate::proofs::Opens::inside_last))]
fn innermost(items: &[Open]) -> Option<usize>
    ensures { result ≡ inside (reverse items.now) }
{
    if items.is_empty() {
        return None;
    }
    match items[items.len() - 1] {
        Open::Brace(outer) => outer,
        Open::Text(_, left) => Some(left),
    }
}
