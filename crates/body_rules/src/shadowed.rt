//! Shadowed.

ghost use Rattle.std.specs.Prelude.{◌≡◌};
ghost use Rattle.dart_syntax.specs.Syntax.{Tree};
ghost use Rattle.dart_meaning.specs.Uses as u;
ghost use Rattle.name_uses.specs.Found.{found};
ghost use Rattle.static_rules.specs.Shadowed.{shadows, shadowed};

use crate::place::place_if;
use crate::use_rule::{UseRule, first_in_parts};
use dart_syntax::token::Span;
use name_uses::{Part, Parts, Use};

/// A local that has the name of one that is still open.
struct Shadows;

impl UseRule for Shadows {
    ghost breaks = { λ _. shadows };

    fn place(&self, _part: &Part, one: &Use) -> Option<Span> {
        match one {
            Use::Declares(name, outside) => place_if(outside.is_some(), name.span),
            Use::Reads(_, _)
            | Use::Writes(_, _)
            | Use::Calls(_, _, _)
            | Use::This(_)
            | Use::SuperReads(_, _)
            | Use::SuperWrites(_, _)
            | Use::SuperCalls(_, _, _)
            | Use::MemberReads(_)
            | Use::MemberWrites(_)
            | Use::MemberCalls(_, _)
            | Use::IndexReads(_)
            | Use::IndexWrites(_)
            | Use::Operates(_, _)
            | Use::Prefixes(_, _)
            | Use::Shows(_)
            | Use::NamesClass(_)
            | Use::LeavesLoop(_, _)
            | Use::ReturnsValue(_)
            | Use::SetsField(_)
            | Use::EntersSuper(_, _) => None,
        }
    }
}

/// The first local with the name of a parameter, or of a local of a block that is open.
#[tactic(auto, unfolding(static_rules::specs::Shadowed::shadowed))]
pub fn first_shadowed(parts: &Parts) -> Option<Span>
    ensures { (tree : Tree) → found parts.now ≡ u.parts tree → result ≡ shadowed tree }
{
    first_in_parts(&Shadows, parts)
}
