//! Rules on single uses.

ghost use Rattle.std.specs.Prelude.{◌≡◌, map};
ghost use Rattle.dart_meaning.specs.Uses as u;
ghost use Rattle.name_uses.specs.Using.{used};
ghost use Rattle.name_uses.specs.Found.{found, part_of};
ghost use Rattle.static_rules.specs.Places.{Fault, first_in};

use crate::place::earlier;
use dart_syntax::token::Span;
use name_uses::{Part, Parts, Use};

/// A rule on single uses.
pub trait UseRule {
    /// Where a use breaks the rule.
    ghost breaks: { Self → u.Part → u.Use → Fault };

    /// The place where a use of a part breaks the rule.
    fn place(&self, part: &Part, one: &Use) -> Option<Span>
        ensures { result ≡ breaks self.now (part_of part.now) (used one.now) };
}

#[tactic(auto, using(crate::proofs::Firsts::or_else_assoc, crate::proofs::Firsts::or_else_none))]
fn first_in_part<R: UseRule>(rule: &R, part: &Part) -> Option<Span>
    ensures { result ≡ first_in (R.breaks rule.now (part_of part.now)) part.now.uses }
{
    let all = part.uses.as_slice();
    let mut at = None;
    for one in all {
        at = earlier(at, rule.place(part, one));
    }
    at
}

/// The first place at which a use breaks a rule.
#[tactic(auto, using(crate::proofs::Firsts::or_else_assoc, crate::proofs::Firsts::or_else_none))]
pub fn first_in_parts<R: UseRule>(rule: &R, parts: &Parts) -> Option<Span>
    ensures { result ≡ first_in (λ part. first_in (R.breaks rule.now part) part.uses) (found parts.now) }
{
    let all = parts.as_slice();
    let mut at = None;
    for part in all {
        at = earlier(at, first_in_part(rule, part));
    }
    at
}
