//! UndefinedName.

ghost use Rattle.std.specs.Prelude.{◌≡◌, map};
ghost use Rattle.dart_meaning.specs.Uses as u;
ghost use Rattle.name_uses.specs.Found.{found, part_of};
ghost use Rattle.name_uses.specs.Looked.{looked};
ghost use Rattle.name_uses.specs.Meant.{means_of};
ghost use Rattle.static_rules.specs.UndefinedName.{is_undefined, of_super, undefined_in, undefined_name};

use crate::place::place_if;
use crate::use_rule::{UseRule, first_in_parts};
use dart_meaning::Seen;
use dart_syntax::token::Span;
use dart_syntax::tree::Name;
use name_uses::{Means, Names, Part, Parts, Use, has_this, meaning_of};

fn is_undefined(this: bool, meant: Means) -> bool
    ensures { result ≡ is_undefined this (means_of meant) }
{
    match meant {
        Means::TooEarly | Means::Nothing => true,
        Means::AMember => !this,
        Means::ALocal(_) | Means::ATop | Means::OfThis => false,
    }
}

fn of_super(this: bool, at: Span, name: &Name, there: bool) -> Option<Span>
    ensures { result ≡ of_super this at name.now there }
{
    if this {
        place_if(!there, name.span)
    } else {
        Some(at)
    }
}

fn of_bare<N: Names>(names: &N, part: &Part, name: &Name, seen: Option<Seen>) -> Option<Span>
    ensures { result ≡ undefined_in (N.tree names.now) (looked (N.tree names.now) (part_of part.now)) (u.reads name.now seen) }
{
    let meant = meaning_of(names, part, name, seen);
    place_if(is_undefined(has_this(part.kind), meant), name.span)
}

/// A name that means nothing where it stands.
#[derive(Drop)]
struct Undefined<'n, N> {
    names: &'n N,
}

impl<'n, N: Names> UseRule for Undefined<'n, N> {
    ghost breaks = { λ rule part. undefined_in (N.tree rule.names.now) (looked (N.tree rule.names.now) part) };

    fn place(&self, part: &Part, one: &Use) -> Option<Span> {
        match one {
            Use::Reads(name, seen) => of_bare(self.names, part, name, *seen),
            Use::Writes(name, seen) => of_bare(self.names, part, name, *seen),
            Use::Calls(name, seen, _) => of_bare(self.names, part, name, *seen),
            Use::This(at) => place_if(!has_this(part.kind), *at),
            Use::SuperReads(at, name) => {
                let there = self.names.super_reads(part, name.text.as_slice());
                of_super(has_this(part.kind), *at, name, there)
            }
            Use::SuperWrites(at, name) => {
                let there = self.names.super_writes(part, name.text.as_slice());
                of_super(has_this(part.kind), *at, name, there)
            }
            Use::SuperCalls(at, name, _) => {
                let there = self.names.super_calls(part, name.text.as_slice());
                of_super(has_this(part.kind), *at, name, there)
            }
            Use::NamesClass(name) => place_if(
                !self.names.is_class(name.text.as_slice()),
                name.span,
            ),
            Use::SetsField(name) => {
                place_if(!self.names.has_field(part, name.text.as_slice()), name.span)
            }
            Use::MemberReads(_)
            | Use::MemberWrites(_)
            | Use::MemberCalls(_, _)
            | Use::IndexReads(_)
            | Use::IndexWrites(_)
            | Use::Operates(_, _)
            | Use::Prefixes(_, _)
            | Use::Shows(_)
            | Use::Declares(_, _)
            | Use::LeavesLoop(_, _)
            | Use::ReturnsValue(_)
            | Use::EntersSuper(_, _) => None,
        }
    }
}

/// The first name that means nothing where it stands.
#[tactic(auto, unfolding(static_rules::specs::UndefinedName::undefined_name))]
pub fn first_undefined<N: Names>(names: &N, parts: &Parts) -> Option<Span>
    ensures { map (looked (N.tree names.now)) (found parts.now) ≡ u.parts (N.tree names.now) → result ≡ undefined_name (N.tree names.now) }
{
    first_in_parts(&Undefined { names }, parts)
}
