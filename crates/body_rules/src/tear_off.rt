//! TearOff.

ghost use Rattle.std.specs.Prelude.{◌≡◌, map};
ghost use Rattle.dart_meaning.specs.Uses as u;
ghost use Rattle.name_uses.specs.Found.{found, part_of};
ghost use Rattle.name_uses.specs.Looked.{looked};
ghost use Rattle.name_uses.specs.Meant.{means_of};
ghost use Rattle.static_rules.specs.TearOff.{is_torn_read, is_torn_call, torn_off, tear_off};

use crate::place::place_if;
use crate::use_rule::{UseRule, first_in_parts};
use dart_syntax::token::Span;
use name_uses::{Means, Names, Part, Parts, Use, meaning_of};

fn is_torn_read<N: Names>(names: &N, name: &[u8], meant: Means) -> bool
    ensures { result ≡ is_torn_read (N.tree names.now) name.now (means_of meant) }
{
    match meant {
        Means::AMember | Means::OfThis => names.is_method(name),
        Means::ATop => !names.is_variable(name),
        Means::TooEarly | Means::ALocal(_) | Means::Nothing => false,
    }
}

fn is_torn_call<N: Names>(names: &N, name: &[u8], meant: Means) -> bool
    ensures { result ≡ is_torn_call (N.tree names.now) name.now (means_of meant) }
{
    match meant {
        Means::TooEarly | Means::ALocal(_) => true,
        Means::AMember | Means::OfThis => names.is_accessor(name),
        Means::ATop => names.is_variable(name),
        Means::Nothing => false,
    }
}

/// A member or a declaration used as what it is not.
#[derive(Drop)]
struct TornOff<'n, N> {
    names: &'n N,
}

impl<'n, N: Names> UseRule for TornOff<'n, N> {
    ghost breaks = { λ rule part. torn_off (N.tree rule.names.now) (looked (N.tree rule.names.now) part) };

    fn place(&self, part: &Part, one: &Use) -> Option<Span> {
        match one {
            Use::Reads(name, seen) => {
                let meant = meaning_of(self.names, part, name, *seen);
                place_if(
                    is_torn_read(self.names, name.text.as_slice(), meant),
                    name.span,
                )
            }
            Use::Calls(name, seen, _) => {
                let meant = meaning_of(self.names, part, name, *seen);
                place_if(
                    is_torn_call(self.names, name.text.as_slice(), meant),
                    name.span,
                )
            }
            Use::SuperReads(_, name) => {
                place_if(self.names.is_method(name.text.as_slice()), name.span)
            }
            Use::SuperCalls(_, name, _) => {
                place_if(self.names.is_accessor(name.text.as_slice()), name.span)
            }
            Use::MemberReads(name) => place_if(
                self.names.is_method(name.text.as_slice()),
                name.span,
            ),
            Use::MemberCalls(name, _) => {
                place_if(self.names.is_accessor(name.text.as_slice()), name.span)
            }
            Use::Writes(_, _)
            | Use::This(_)
            | Use::SuperWrites(_, _)
            | Use::MemberWrites(_)
            | Use::IndexReads(_)
            | Use::IndexWrites(_)
            | Use::Operates(_, _)
            | Use::Prefixes(_, _)
            | Use::Shows(_)
            | Use::NamesClass(_)
            | Use::Declares(_, _)
            | Use::LeavesLoop(_, _)
            | Use::ReturnsValue(_)
            | Use::SetsField(_)
            | Use::EntersSuper(_, _) => None,
        }
    }
}

/// The first name that is used as what it is not: a method that is read, a field that is called.
#[tactic(auto, unfolding(static_rules::specs::TearOff::tear_off))]
pub fn first_torn_off<N: Names>(names: &N, parts: &Parts) -> Option<Span>
    ensures { map (looked (N.tree names.now)) (found parts.now) ≡ u.parts (N.tree names.now) → result ≡ tear_off (N.tree names.now) }
{
    first_in_parts(&TornOff { names }, parts)
}
