//! The names after `extends` and `implements`.

ghost use Rattle.std.specs.Prelude.{◌≡◌, map, IfOk};
ghost use Rattle.std.specs.Option.{option_to_list};
ghost use Rattle.dart_syntax.specs.View.{class, unit};
ghost use Rattle.declaration_rules.specs.Known.{breaks, breaks_at, breaks_in, class_names, is_one_of};
ghost use Rattle.static_rules.specs.Places.{first_in};
ghost use Rattle.declaration_rules.specs.Seen.{has, class_of};
ghost use Rattle.static_rules.specs.Supers.{unknown_super, super_is_builtin};

use crate::built_ins::{built_ins, is_class_of};
use crate::classes::{classes_of, names_of};
use crate::places::{earlier_of, place_if};
use dart_syntax::token::Span;
use dart_syntax::tree::{ClassDecl, Name, Tree};
use program::Class;
use std::alloc::{AllocError, Global};
use std::collections::HashSet;

const OBJECT: &[u8] = b"Object";

/// The rules that ask each name by itself.
#[derive(Clone, Copy)]
pub enum SuperRule {
    Unknown,
    BuiltIn,
}

fn breaks_at(
    rule: SuperRule,
    known: &HashSet<&[u8]>,
    built_in: &[Class],
    name: &Name,
) -> Option<Span>
    ensures { result ≡ breaks_at rule (has known.now) (is_one_of (class_names built_in.now)) name.now }
{
    let text = name.text.as_slice();
    let wrong = match rule {
        SuperRule::Unknown => !(known.contains(&text) || is_class_of(built_in, text)),
        SuperRule::BuiltIn => is_class_of(built_in, text) && text != OBJECT,
    };
    place_if(wrong, name.span)
}

fn parent_breaks(
    rule: SuperRule,
    known: &HashSet<&[u8]>,
    built_in: &[Class],
    parent: &Option<Name>,
) -> Option<Span>
    ensures { result ≡ first_in (breaks_at rule (has known.now) (is_one_of (class_names built_in.now))) (option_to_list parent.now) }
{
    match parent {
        None => None,
        Some(name) => breaks_at(rule, known, built_in, name),
    }
}

fn interface_breaks(
    rule: SuperRule,
    known: &HashSet<&[u8]>,
    built_in: &[Class],
    names: &[Name],
) -> Option<Span>
    ensures { result ≡ first_in (breaks_at rule (has known.now) (is_one_of (class_names built_in.now))) names.now }
{
    let mut at = None;
    for name in names {
        at = earlier_of(at, breaks_at(rule, known, built_in, name));
    }
    at
}

#[tactic(auto, using(crate::proofs::Firsts::first_in_append))]
fn breaks_in(
    rule: SuperRule,
    known: &HashSet<&[u8]>,
    built_in: &[Class],
    c: &ClassDecl,
) -> Option<Span>
    ensures { result ≡ breaks_in rule (has known.now) (is_one_of (class_names built_in.now)) (class c.now) }
{
    let at = parent_breaks(rule, known, built_in, &c.parent);
    earlier_of(
        at,
        interface_breaks(rule, known, built_in, c.interfaces.as_slice()),
    )
}

fn first_breaks(
    rule: SuperRule,
    known: &HashSet<&[u8]>,
    built_in: &[Class],
    classes: &[&ClassDecl],
) -> Option<Span>
    ensures { result ≡ first_in (breaks_in rule (has known.now) (is_one_of (class_names built_in.now))) (map class_of classes.now) }
{
    let mut at = None;
    for c in classes {
        at = earlier_of(at, breaks_in(rule, known, built_in, c));
    }
    at
}

/// The first name after `extends` or `implements` that is no class.
pub fn unknown_super(alloc: Global, tree: &Tree) -> Result<Option<Span>, AllocError>
    ensures { IfOk result (λ at. at ≡ unknown_super (unit tree.now)) }
{
    let classes = classes_of(alloc, tree.tops.as_slice())?;
    let known = names_of(alloc, &classes)?;
    let built_in = built_ins(alloc)?;
    Ok(first_breaks(
        SuperRule::Unknown,
        &known,
        built_in.classes.as_slice(),
        &classes,
    ))
}

/// The first name there that is a built-in class other than Object.
pub fn super_is_builtin(alloc: Global, tree: &Tree) -> Result<Option<Span>, AllocError>
    ensures { IfOk result (λ at. at ≡ super_is_builtin (unit tree.now)) }
{
    let classes = classes_of(alloc, tree.tops.as_slice())?;
    let known = names_of(alloc, &classes)?;
    let built_in = built_ins(alloc)?;
    Ok(first_breaks(
        SuperRule::BuiltIn,
        &known,
        built_in.classes.as_slice(),
        &classes,
    ))
}
