//! Names that stand a second time.

ghost use Rattle.std.specs.Prelude.{◌≡◌, not, IfOk, OnOk, option_map};
ghost use Rattle.static_rules.specs.Places.{◌or_else◌};
ghost use Rattle.static_rules.specs.Repeats.{with_name};
ghost use Rattle.declaration_rules.specs.Seen.{has, name_of, again, with_option};

use crate::places::{earlier_of, place_if};
use dart_syntax::token::Span;
use dart_syntax::tree::Name;
use std::alloc::AllocError;
use std::collections::HashSet;

/// A name and its place.
#[derive(Clone, Copy)]
pub struct Named<'a> {
    pub text: &'a [u8],
    pub span: Span,
}

/// A name of the tree.
pub fn as_named(name: &Name) -> Named<'_>
    ensures { name_of result ≡ name.now }
{
    Named {
        text: name.text.as_slice(),
        span: name.span,
    }
}

/// Takes a name to those that were there, and says whether it is a new one.
pub fn note<'a>(seen: &mut HashSet<&'a [u8]>, text: &'a [u8]) -> Result<bool, AllocError>
    ensures fresh { IfOk result (λ fresh. fresh ≡ not (has seen.old text.now)) }
    ensures more { OnOk result ((q : _) → has seen.new q ≡ with_name text.now (has seen.old) q) }
{
    Ok(seen.insert(text)?)
}

/// The same, where there is a name, with the first place so far where one stands again.
pub fn note_name<'a>(
    seen: &mut HashSet<&'a [u8]>,
    name: Option<Named<'a>>,
    at: Option<Span>,
) -> Result<Option<Span>, AllocError>
    ensures place { IfOk result (λ next. next ≡ (at or_else again (has seen.old) (option_map name_of name.entry))) }
    ensures more { OnOk result ((q : _) → has seen.new q ≡ with_option (option_map name_of name.entry) (has seen.old) q) }
{
    match name {
        None => Ok(at),
        Some(name) => {
            let fresh = note(seen, name.text)?;
            Ok(earlier_of(at, place_if(!fresh, name.span)))
        }
    }
}
