//! FinalWritten.

ghost use Rattle.std.specs.Prelude.{◌≡◌, map};
ghost use Rattle.dart_meaning.specs.Uses as u;
ghost use Rattle.name_uses.specs.Found.{found, part_of};
ghost use Rattle.name_uses.specs.Looked.{looked};
ghost use Rattle.name_uses.specs.Meant.{means_of};
ghost use Rattle.static_rules.specs.FinalWritten.{is_fixed, final_in, final_written};

use crate::place::place_if;
use crate::use_rule::{UseRule, first_in_parts};
use dart_syntax::token::Span;
use name_uses::{Means, Names, Part, Parts, Use, meaning_of};

fn is_fixed<N: Names>(names: &N, name: &[u8], meant: Means) -> bool
    ensures { result ≡ is_fixed (N.tree names.now) name.now (means_of meant) }
{
    match meant {
        Means::ALocal(is_final) => is_final,
        Means::ATop => names.is_fixed(name),
        Means::TooEarly | Means::AMember | Means::OfThis | Means::Nothing => false,
    }
}

/// An assignment to what is final.
#[derive(Drop)]
struct FinalWritten<'n, N> {
    names: &'n N,
}

impl<'n, N: Names> UseRule for FinalWritten<'n, N> {
    ghost breaks = { λ rule part. final_in (N.tree rule.names.now) (looked (N.tree rule.names.now) part) };

    fn place(&self, part: &Part, one: &Use) -> Option<Span> {
        match one {
            Use::Writes(name, seen) => {
                let meant = meaning_of(self.names, part, name, *seen);
                place_if(is_fixed(self.names, name.text.as_slice(), meant), name.span)
            }
            Use::SetsField(name) => {
                place_if(
                    self.names.is_initialised(part, name.text.as_slice()),
                    name.span,
                )
            }
            Use::Reads(_, _)
            | Use::Calls(_, _, _)
            | Use::This(_)
            | Use::SuperReads(_, _)
            | Use::SuperWrites(_, _)
            | Use::SuperCalls(_, _, _)
            | Use::MemberReads(_)
            | Use::MemberWrites(_)
            | Use::MemberCalls(_, _)
            | Use::IndexReads(_)
            | Use::IndexWrites(_)
            | Use::Operates(_, _)
            | Use::Prefixes(_, _)
            | Use::Shows(_)
            | Use::NamesClass(_)
            | Use::Declares(_, _)
            | Use::LeavesLoop(_, _)
            | Use::ReturnsValue(_)
            | Use::EntersSuper(_, _) => None,
        }
    }
}

/// The first assignment to what is final.
#[tactic(auto, unfolding(static_rules::specs::FinalWritten::final_written))]
pub fn first_final_written<N: Names>(names: &N, parts: &Parts) -> Option<Span>
    ensures { map (looked (N.tree names.now)) (found parts.now) ≡ u.parts (N.tree names.now) → result ≡ final_written (N.tree names.now) }
{
    first_in_parts(&FinalWritten { names }, parts)
}
