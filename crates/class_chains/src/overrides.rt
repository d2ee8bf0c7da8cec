//! Methods that take another number of parameters than the nearest of their name above.
//! The walk down takes time with the members of the text, and a hash of each name.
//! What is on a cycle, or below a name that is no class of the user's, is asked by the way up of each of its methods: it breaks a rule that is read before.

ghost use Rattle.std.specs.Prelude.{◌≡◌, Some, map, IfOk};
ghost use Rattle.std.specs.List.{slice_get};
ghost use Rattle.dart_syntax.specs.View.{member, class, unit};
ghost use Rattle.static_rules.specs.BadOverride.{bad_override};
ghost use Rattle.static_rules.specs.Places.{first_in};
ghost use Rattle.declaration_rules.specs.Seen.{class_of};
ghost use Rattle.class_chains.specs.Overriding.{above, override_at, overrides_of};
ghost use Rattle.class_chains.specs.Descending.{HoldAll, IsPlace};

use crate::chains::{Chains, chains_of};
use crate::descent::{place_at, places_of};
use crate::nearest::differs;
use dart_syntax::token::Span;
use dart_syntax::tree::{ClassDecl, Member, Tree};
use declaration_rules::{classes_of, earlier_of, place_if};
use std::alloc::{AllocError, Global};

fn override_at(chains: &Chains<'_>, class: &[u8], m: &Member) -> Option<Span>
    ensures { result ≡ override_at (above chains.now class.now) (member m.now) }
{
    match m {
        Member::Method(name, params, _) => {
            let above = chains.count_above(class, name.text.as_slice());
            place_if(differs(above, params.len()), name.span)
        }
        Member::Field(_)
        | Member::Getter(_, _)
        | Member::Setter(_, _, _)
        | Member::Operator(_, _, _, _)
        | Member::Constructor(_, _, _, _) => None,
    }
}

/// The first method of a class that takes another number of parameters, by the way up of each.
fn overrides_in(chains: &Chains<'_>, c: &ClassDecl) -> Option<Span>
    ensures { result ≡ overrides_of chains.now (class c.now) }
{
    let mut at = None;
    for m in c.members.as_slice() {
        at = earlier_of(at, override_at(chains, c.name.text.as_slice(), m));
    }
    at
}

/// The same, where the walk may have found it.
fn first_in_class(
    chains: &Chains<'_>,
    places: &[Option<Option<Span>>],
    number: usize,
    c: &ClassDecl,
) -> Option<Span>
    requires places { HoldAll (IsPlace chains.now) places.now }
    requires at { slice_get chains.now.all.items number ≡ Some c }
    ensures { result ≡ overrides_of chains.now (class_of c.entry) }
{
    match place_at(places, number) {
        Some(place) => place,
        None => overrides_in(chains, c),
    }
}

fn first_override(chains: &Chains<'_>, places: &[Option<Option<Span>>]) -> Option<Span>
    requires { HoldAll (IsPlace chains.now) places.now }
    ensures { result ≡ first_in (overrides_of chains.now) (map class_of chains.now.all.items) }
{
    let mut at = None;
    let all = chains.all();
    for number in 0..all.len() {
        at = earlier_of(at, first_in_class(chains, places, number, all[number]));
    }
    at
}

/// The first method that takes another number of parameters than the nearest of its name above.
pub fn bad_override(alloc: Global, tree: &Tree) -> Result<Option<Span>, AllocError>
    ensures { IfOk result (λ at. at ≡ bad_override (unit tree.now)) }
{
    let classes = classes_of(alloc, tree.tops.as_slice())?;
    let built_in = program::built_in_program(alloc)?;
    let chains = chains_of(alloc, classes, &built_in)?;
    let places = places_of(alloc, &chains)?;
    Ok(first_override(&chains, &places))
}
