//! BadReturnPlace.

ghost use Rattle.std.specs.Prelude.{◌≡◌};
ghost use Rattle.dart_syntax.specs.Syntax.{Tree};
ghost use Rattle.dart_meaning.specs.Uses as u;
ghost use Rattle.name_uses.specs.Found.{found, kind_of};
ghost use Rattle.static_rules.specs.BadReturnPlace.{misplaced, is_constructor_body, bad_return_place};

use crate::place::place_if;
use crate::use_rule::{UseRule, first_in_parts};
use dart_syntax::token::Span;
use name_uses::{Kind, Part, Parts, Use};

fn is_constructor_body(kind: Kind) -> bool
    ensures { result ≡ is_constructor_body (kind_of kind) }
{
    match kind {
        Kind::OfConstructor => true,
        Kind::OfFunction | Kind::OfMember | Kind::OfPassed => false,
    }
}

/// A `return` with a value in a constructor, or a `break` outside a loop.
struct Misplaced;

impl UseRule for Misplaced {
    ghost breaks = { λ _. misplaced };

    fn place(&self, part: &Part, one: &Use) -> Option<Span> {
        match one {
            Use::LeavesLoop(at, is_open) => place_if(!*is_open, *at),
            Use::ReturnsValue(at) => place_if(is_constructor_body(part.kind), *at),
            Use::Reads(_, _)
            | Use::Writes(_, _)
            | Use::Calls(_, _, _)
            | Use::This(_)
            | Use::SuperReads(_, _)
            | Use::SuperWrites(_, _)
            | Use::SuperCalls(_, _, _)
            | Use::MemberReads(_)
            | Use::MemberWrites(_)
            | Use::MemberCalls(_, _)
            | Use::IndexReads(_)
            | Use::IndexWrites(_)
            | Use::Operates(_, _)
            | Use::Prefixes(_, _)
            | Use::Shows(_)
            | Use::NamesClass(_)
            | Use::Declares(_, _)
            | Use::SetsField(_)
            | Use::EntersSuper(_, _) => None,
        }
    }
}

/// The first `return`, `break` or `continue` that may not stand where it does.
#[tactic(auto, unfolding(static_rules::specs::BadReturnPlace::bad_return_place))]
pub fn first_misplaced(parts: &Parts) -> Option<Span>
    ensures { (tree : Tree) → found parts.now ≡ u.parts tree → result ≡ bad_return_place tree }
{
    first_in_parts(&Misplaced, parts)
}
