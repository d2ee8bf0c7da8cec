//! The rules, in their order.

ghost use Rattle.std.specs.Prelude.{◌≡◌, map, option_map, take, drop, IfOk};
ghost use Rattle.dart_syntax.specs.View.{unit};
ghost use Rattle.dart_meaning.specs.Uses as u;
ghost use Rattle.name_uses.specs.Found.{found};
ghost use Rattle.name_uses.specs.Looked.{looked};
ghost use Rattle.static_rules.specs.Accepted.{findings, first_broken};
ghost use Rattle.resolver.specs.Refusals.{finding};

use crate::error::{Broken, finding};
use body_rules::{
    first_abstract_made, first_final_written, first_misplaced, first_shadowed, first_torn_off,
    first_undefined, first_wrong_arguments,
};
use class_chains::{bad_override, cycle_in_super};
use dart_syntax::tree::Tree;
use declaration_rules::{duplicate_name, mixed_name, super_is_builtin, unknown_super};
use name_uses::Parts;
use static_rules::Rule;
use std::alloc::{AllocError, Global};
use text_names::TextNames;

fn of_supers(alloc: Global, tree: &Tree) -> Result<Option<Broken>, AllocError>
    ensures { IfOk result (λ f. option_map finding f ≡ first_broken (take 3 (drop 1 (findings (unit tree.now))))) }
{
    if let Some(span) = unknown_super(alloc, tree)? {
        return Ok(finding(Rule::UnknownSuper, span));
    }
    if let Some(span) = cycle_in_super(alloc, tree)? {
        return Ok(finding(Rule::CycleInSuper, span));
    }
    if let Some(span) = super_is_builtin(alloc, tree)? {
        return Ok(finding(Rule::SuperIsBuiltin, span));
    }
    Ok(None)
}

/// The first of the rules on names that stand twice and on superclasses that is broken.
pub fn of_declarations(alloc: Global, tree: &Tree) -> Result<Option<Broken>, AllocError>
    ensures { IfOk result (λ f. option_map finding f ≡ first_broken (take 4 (findings (unit tree.now)))) }
{
    if let Some(span) = duplicate_name(alloc, tree)? {
        return Ok(finding(Rule::DuplicateName, span));
    }
    of_supers(alloc, tree)
}

fn from_return_place(names: &TextNames, parts: &Parts) -> Option<Broken>
    requires whole { found parts.now ≡ u.parts (unit names.now.tree.now) }
    requires by_names { map (looked (unit names.now.tree.now)) (found parts.now) ≡ u.parts (unit names.now.tree.now) }
    ensures { option_map finding result ≡ first_broken (drop 10 (findings (unit names.now.tree.now))) }
{
    if let Some(span) = first_misplaced(parts) {
        return finding(Rule::BadReturnPlace, span);
    }
    if let Some(span) = first_shadowed(parts) {
        return finding(Rule::Shadowed, span);
    }
    if let Some(span) = first_wrong_arguments(names, parts) {
        return finding(Rule::WrongArgumentsOfStatic, span);
    }
    None
}

fn from_override(
    alloc: Global,
    names: &TextNames,
    parts: &Parts,
) -> Result<Option<Broken>, AllocError>
    requires whole { found parts.now ≡ u.parts (unit names.now.tree.now) }
    requires by_names { map (looked (unit names.now.tree.now)) (found parts.now) ≡ u.parts (unit names.now.tree.now) }
    ensures { IfOk result (λ f. option_map finding f ≡ first_broken (drop 7 (findings (unit names.now.tree.now)))) }
{
    if let Some(span) = bad_override(alloc, names.tree)? {
        return Ok(finding(Rule::BadOverride, span));
    }
    if let Some(span) = first_abstract_made(names, parts) {
        return Ok(finding(Rule::AbstractMade, span));
    }
    if let Some(span) = first_final_written(names, parts) {
        return Ok(finding(Rule::FinalWritten, span));
    }
    Ok(from_return_place(names, parts))
}

/// The first of the rules from UndefinedName on that is broken.
pub fn of_bodies(
    alloc: Global,
    names: &TextNames,
    parts: &Parts,
) -> Result<Option<Broken>, AllocError>
    requires whole { found parts.now ≡ u.parts (unit names.now.tree.now) }
    requires by_names { map (looked (unit names.now.tree.now)) (found parts.now) ≡ u.parts (unit names.now.tree.now) }
    ensures { IfOk result (λ f. option_map finding f ≡ first_broken (drop 4 (findings (unit names.now.tree.now)))) }
{
    if let Some(span) = first_undefined(names, parts) {
        return Ok(finding(Rule::UndefinedName, span));
    }
    if let Some(span) = mixed_name(alloc, names.tree)? {
        return Ok(finding(Rule::MixedName, span));
    }
    if let Some(span) = first_torn_off(names, parts) {
        return Ok(finding(Rule::TearOff, span));
    }
    from_override(alloc, names, parts)
}
