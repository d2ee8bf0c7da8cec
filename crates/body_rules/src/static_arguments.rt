//! WrongArgumentsOfStatic.

ghost use Rattle.std.specs.Prelude.{◌≡◌, map};
ghost use Rattle.dart_meaning.specs.Uses as u;
ghost use Rattle.name_uses.specs.Found.{found, part_of};
ghost use Rattle.name_uses.specs.Looked.{looked};
ghost use Rattle.name_uses.specs.Meant.{means_of};
ghost use Rattle.static_rules.specs.WrongArgumentsOfStatic.{is_wrong_call, wrong_in, wrong_arguments_of_static};

use crate::place::place_if;
use crate::use_rule::{UseRule, first_in_parts};
use dart_syntax::token::Span;
use name_uses::{Means, Names, Part, Parts, Use, meaning_of};

fn is_wrong_call<N: Names>(names: &N, name: &[u8], count: usize, meant: Means) -> bool
    ensures { result ≡ is_wrong_call (N.tree names.now) name.now count (means_of meant) }
{
    match meant {
        Means::ATop => names.takes_other(name, count),
        Means::TooEarly | Means::ALocal(_) | Means::AMember | Means::OfThis | Means::Nothing =>
            false,
    }
}

/// A call with another number of arguments.
#[derive(Drop)]
struct WrongArguments<'n, N> {
    names: &'n N,
}

impl<'n, N: Names> UseRule for WrongArguments<'n, N> {
    ghost breaks = { λ rule part. wrong_in (N.tree rule.names.now) (looked (N.tree rule.names.now) part) };

    fn place(&self, part: &Part, one: &Use) -> Option<Span> {
        match one {
            Use::Calls(name, seen, count) => {
                let meant = meaning_of(self.names, part, name, *seen);
                let wrong = is_wrong_call(self.names, name.text.as_slice(), *count, meant);
                place_if(wrong, name.span)
            }
            Use::SuperCalls(_, name, count) => {
                let wrong = self
                    .names
                    .super_takes_other(part, name.text.as_slice(), *count);
                place_if(wrong, name.span)
            }
            Use::EntersSuper(at, count) => place_if(*count != self.names.super_count(part), *at),
            Use::Reads(_, _)
            | Use::Writes(_, _)
            | Use::This(_)
            | Use::SuperReads(_, _)
            | Use::SuperWrites(_, _)
            | Use::MemberReads(_)
            | Use::MemberWrites(_)
            | Use::MemberCalls(_, _)
            | Use::IndexReads(_)
            | Use::IndexWrites(_)
            | Use::Operates(_, _)
            | Use::Prefixes(_, _)
            | Use::Shows(_)
            | Use::NamesClass(_)
            | Use::Declares(_, _)
            | Use::LeavesLoop(_, _)
            | Use::ReturnsValue(_)
            | Use::SetsField(_) => None,
        }
    }
}

/// The first call of a name of the text, or of a member of `super`, with another number of arguments than it takes.
#[tactic(auto, unfolding(static_rules::specs::WrongArgumentsOfStatic::wrong_arguments_of_static))]
pub fn first_wrong_arguments<N: Names>(names: &N, parts: &Parts) -> Option<Span>
    ensures { map (looked (N.tree names.now)) (found parts.now) ≡ u.parts (N.tree names.now) → result ≡ wrong_arguments_of_static (N.tree names.now) }
{
    first_in_parts(&WrongArguments { names }, parts)
}
