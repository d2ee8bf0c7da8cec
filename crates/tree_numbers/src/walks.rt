//! Walks up the hierarchy.

ghost use Rattle.std.specs.Prelude.{◌≡◌, ◌+◌, IfOk, option_map, position};
ghost use Rattle.std.specs.List.{list_any};
ghost use Rattle.std.specs.Str.{bytes_eq};
ghost use Rattle.program.specs.Lookup.{is_declared_by, same_kind};
ghost use Rattle.dart_meaning.specs.Classes.{built_in_names};
ghost use Rattle.tree_numbers.specs.ClassFacts.{facts_of, knows};
ghost use Rattle.tree_numbers.specs.Order.{above_in};
ghost use Rattle.tree_numbers.specs.Walks.{field_count, fields_up, owns_of, has_at, owned_if, owns_by, owner_up};

use crate::class_facts::ClassFacts;
use crate::known::is_in;
use crate::order::{BUILT_IN, NO_NAME, above, class_of};
use ds_base::NoMemory;
use program::{Method, SelectorKind};
use std::collections::HashMap;

/// A sum. No memory holds as many things as a number does not.
pub fn sum(a: usize, b: usize) -> Result<usize, NoMemory>
    ensures { IfOk result (λ n. n ≡ a + b) }
{
    a.checked_add(b).ok_or(NoMemory)
}

fn field_count(facts: Option<&ClassFacts>) -> usize
    ensures { result ≡ field_count (option_map (λ n. facts_of n.now) facts.entry) }
{
    match facts {
        Some(facts) => facts.field_count,
        None => 0,
    }
}

/// How many fields the classes above one have, where no more than so many classes are looked at.
pub fn fields_up<'a>(
    known: &HashMap<&'a [u8], ClassFacts<'a>>,
    class: &'a [u8],
    levels: usize,
) -> Result<usize, NoMemory>
    ensures { IfOk result (λ n. n ≡ fields_up levels (knows known.now) class.now) }
{
    let mut at = class;
    let mut count = 0;
    let mut left = levels;
    while left > 0 {
        let Some(parent) = above(known, at) else {
            return Ok(count);
        };
        count = sum(count, field_count(class_of(known, parent)))?;
        at = parent;
        left -= 1;
    }
    Ok(count)
}

fn owns_of(facts: &ClassFacts, kind: SelectorKind, name: &[u8]) -> bool
    ensures { result ≡ owns_of kind (facts_of facts.now) name.now }
{
    match kind {
        SelectorKind::Get => is_in(&facts.reads, name),
        SelectorKind::Set => is_in(&facts.writes, name),
        SelectorKind::Call => is_in(&facts.calls, name),
    }
}

fn same_kind(a: SelectorKind, b: SelectorKind) -> bool
    ensures { result ≡ same_kind a b }
{
    a == b
}

fn is_declared_by(class: usize, kind: SelectorKind, name: &[u8], m: &Method) -> bool
    ensures { result ≡ is_declared_by class kind name.now m.now }
{
    m.owner.0 as usize == class && (same_kind(m.role, kind) && m.name.as_slice() == name)
}

fn has_member(methods: &[Method], class: usize, kind: SelectorKind, name: &[u8]) -> bool
    ensures { result ≡ list_any (is_declared_by class kind name.now) methods.now }
{
    methods.iter().any(|m| is_declared_by(class, kind, name, m))
}

fn place_in(names: &[&[u8]], name: &[u8]) -> Option<usize>
    ensures { result ≡ position (λ x. bytes_eq name.now x.now) names.now }
{
    names.iter().position(|x| name == *x)
}

/// The number of a built-in class.
fn built_in_place(name: &[u8]) -> Option<usize>
    ensures { result ≡ position (bytes_eq name.now) built_in_names }
{
    place_in(&BUILT_IN, name)
}

fn has_at(methods: &[Method], class: Option<usize>, kind: SelectorKind, name: &[u8]) -> bool
    ensures { result ≡ has_at methods.now kind name.now class }
{
    match class {
        Some(class) => has_member(methods, class, kind, name),
        None => false,
    }
}

/// Whether a class itself declares such a member with a body.
fn owns(
    known: &HashMap<&[u8], ClassFacts>,
    built_in: &[Method],
    class: &[u8],
    kind: SelectorKind,
    name: &[u8],
) -> bool
    ensures { result ≡ owns_by built_in.now (knows known.now) kind name.now class.now }
{
    match class_of(known, class) {
        Some(facts) => owns_of(facts, kind, name),
        None => has_at(built_in, built_in_place(class), kind, name),
    }
}

/// The first class above one that declares such a member.
pub fn owner_up<'a>(
    known: &HashMap<&'a [u8], ClassFacts<'a>>,
    built_in: &[Method],
    class: &'a [u8],
    kind: SelectorKind,
    name: &[u8],
    levels: usize,
) -> &'a [u8]
    ensures { result.now ≡ owner_up levels (owns_by built_in.now (knows known.now) kind name.now) (above_in (knows known.now)) class.now }
{
    let mut at = class;
    let mut left = levels;
    while left > 0 {
        let Some(parent) = above(known, at) else {
            return NO_NAME;
        };
        if owns(known, built_in, parent, kind, name) {
            return parent;
        }
        at = parent;
        left -= 1;
    }
    NO_NAME
}
