//! The first of places.

ghost use Rattle.std.specs.Prelude.{◌≡◌};
ghost use Rattle.static_rules.specs.Places.{◌or_else◌, at_if};

use dart_syntax::token::Span;

/// The earlier of two places, where there are any.
pub fn earlier(a: Option<Span>, b: Option<Span>) -> Option<Span>
    ensures { result ≡ (a or_else b) }
{
    match (a, b) {
        (None, b) => b,
        (Some(a), None) => Some(a),
        (Some(a), Some(b)) => Some(if b.start < a.start { b } else { a }),
    }
}

/// This place, where something is wrong there.
pub fn place_if(wrong: bool, place: Span) -> Option<Span>
    ensures { result ≡ at_if wrong place }
{
    if wrong { Some(place) } else { None }
}
