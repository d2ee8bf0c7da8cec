//! Two declarations that may not have one name.

ghost use Rattle.std.specs.Prelude.{◌≡◌, map, IfOk, OnOk};
ghost use Rattle.dart_syntax.specs.View.{top, unit};
ghost use Rattle.dart_meaning.specs.Means.{top_name};
ghost use Rattle.static_rules.specs.DuplicateName.{duplicate_name, in_top};
ghost use Rattle.declaration_rules.specs.Known.{also_known, class_names, is_built_in_of};
ghost use Rattle.static_rules.specs.Places.{at_if, first_in, ◌or_else◌};
ghost use Rattle.static_rules.specs.Repeats.{repeated, with_name};
ghost use Rattle.declaration_rules.specs.Seen.{has};

use crate::built_ins::{built_ins, is_built_in};
use crate::duplicates::{repeated_in_body, repeated_param};
use crate::members::repeated_in_class;
use crate::places::{earlier_of, place_if};
use crate::repeats::note;
use dart_syntax::token::Span;
use dart_syntax::tree::{Name, Top, Tree};
use program::Class;
use std::alloc::{AllocError, Global};
use std::collections::HashSet;

/// The name of a declaration.
pub fn top_name(t: &Top) -> &Name
    ensures { result.now ≡ top_name (top t.now) }
{
    match t {
        Top::Class(c) => &c.name,
        Top::Function(f) => &f.name,
        Top::Variable(v) => &v.name,
    }
}

/// Takes the name of a declaration to those that were there; its place is one where a name stands again, or is built in.
fn note_top<'a>(
    seen: &mut HashSet<&'a [u8]>,
    built_in: &[Class],
    name: &'a Name,
    at: Option<Span>,
) -> Result<Option<Span>, AllocError>
    ensures place { IfOk result (λ next. next ≡ (at or_else at_if (also_known (is_built_in_of (class_names built_in.now)) (has seen.old) name.now.text) name.now.span)) }
    ensures more { OnOk result ((q : _) → has seen.new q ≡ with_name name.now.text (has seen.old) q) }
{
    let text = name.text.as_slice();
    let fresh = note(seen, text)?;
    let wrong = !fresh || is_built_in(built_in, text);
    Ok(earlier_of(at, place_if(wrong, name.span)))
}

/// The first declaration that has the name of one before it, or of a built-in one.
fn repeated_top(alloc: Global, built_in: &[Class], tops: &[Top]) -> Result<Option<Span>, AllocError>
    ensures { IfOk result (λ at. at ≡ repeated (is_built_in_of (class_names built_in.now)) (map top_name (map top tops.now))) }
{
    let mut seen: HashSet<&[u8]> = HashSet::new(alloc);
    let mut at = None;
    for t in tops {
        at = note_top(&mut seen, built_in, top_name(t), at)?;
    }
    Ok(at)
}

fn repeated_in_top(alloc: Global, t: &Top) -> Result<Option<Span>, AllocError>
    ensures { IfOk result (λ at. at ≡ in_top (top t.now)) }
{
    match t {
        Top::Class(c) => repeated_in_class(alloc, c),
        Top::Function(f) => {
            let at = repeated_param(alloc, f.params.as_slice())?;
            Ok(earlier_of(at, repeated_in_body(alloc, &f.body)?))
        }
        Top::Variable(_) => Ok(None),
    }
}

fn repeated_in_tops(alloc: Global, tops: &[Top]) -> Result<Option<Span>, AllocError>
    ensures { IfOk result (λ at. at ≡ first_in in_top (map top tops.now)) }
{
    let mut at = None;
    for t in tops {
        at = earlier_of(at, repeated_in_top(alloc, t)?);
    }
    Ok(at)
}

/// The first place where a name is declared that may not be declared there.
pub fn duplicate_name(alloc: Global, tree: &Tree) -> Result<Option<Span>, AllocError>
    ensures { IfOk result (λ at. at ≡ duplicate_name (unit tree.now)) }
{
    let built_in = built_ins(alloc)?;
    let tops = tree.tops.as_slice();
    let at = repeated_top(alloc, built_in.classes.as_slice(), tops)?;
    Ok(earlier_of(at, repeated_in_tops(alloc, tops)?))
}
