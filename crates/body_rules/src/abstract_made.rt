//! AbstractMade.

ghost use Rattle.std.specs.Prelude.{◌≡◌, map};
ghost use Rattle.dart_meaning.specs.Uses as u;
ghost use Rattle.name_uses.specs.Found.{found, part_of};
ghost use Rattle.name_uses.specs.Looked.{looked};
ghost use Rattle.name_uses.specs.Meant.{means_of};
ghost use Rattle.static_rules.specs.AbstractMade.{makes_unmade, abstract_in, abstract_made};

use crate::place::place_if;
use crate::use_rule::{UseRule, first_in_parts};
use dart_syntax::token::Span;
use name_uses::{Means, Names, Part, Parts, Use, meaning_of};

fn makes_unmade<N: Names>(names: &N, name: &[u8], meant: Means) -> bool
    ensures { result ≡ makes_unmade (N.tree names.now) name.now (means_of meant) }
{
    match meant {
        Means::ATop => names.is_unmade(name),
        Means::TooEarly | Means::ALocal(_) | Means::AMember | Means::OfThis | Means::Nothing =>
            false,
    }
}

/// A construction of a class of which no object is made.
#[derive(Drop)]
struct AbstractMade<'n, N> {
    names: &'n N,
}

impl<'n, N: Names> UseRule for AbstractMade<'n, N> {
    ghost breaks = { λ rule part. abstract_in (N.tree rule.names.now) (looked (N.tree rule.names.now) part) };

    fn place(&self, part: &Part, one: &Use) -> Option<Span> {
        match one {
            Use::Calls(name, seen, _) => {
                let meant = meaning_of(self.names, part, name, *seen);
                place_if(
                    makes_unmade(self.names, name.text.as_slice(), meant),
                    name.span,
                )
            }
            Use::Reads(_, _)
            | Use::Writes(_, _)
            | Use::This(_)
            | Use::SuperReads(_, _)
            | Use::SuperWrites(_, _)
            | Use::SuperCalls(_, _, _)
            | Use::MemberReads(_)
            | Use::MemberWrites(_)
            | Use::MemberCalls(_, _)
            | Use::IndexReads(_)
            | Use::IndexWrites(_)
            | Use::Operates(_, _)
            | Use::Prefixes(_, _)
            | Use::Shows(_)
            | Use::NamesClass(_)
            | Use::Declares(_, _)
            | Use::LeavesLoop(_, _)
            | Use::ReturnsValue(_)
            | Use::SetsField(_)
            | Use::EntersSuper(_, _) => None,
        }
    }
}

/// The first construction of a class of which no object is made.
#[tactic(auto, unfolding(static_rules::specs::AbstractMade::abstract_made))]
pub fn first_abstract_made<N: Names>(names: &N, parts: &Parts) -> Option<Span>
    ensures { map (looked (N.tree names.now)) (found parts.now) ≡ u.parts (N.tree names.now) → result ≡ abstract_made (N.tree names.now) }
{
    first_in_parts(&AbstractMade { names }, parts)
}
