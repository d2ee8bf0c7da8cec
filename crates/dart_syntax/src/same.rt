//! Equal texts.

ghost use Rattle.std.specs.Prelude.{◌≡◌};
ghost use Rattle.dart_syntax.specs.Derivation.{same_text};

/// Whether two names or words are the same.
#[tactic(auto, using(crate::proofs::Texts::text_is))]
pub fn same_text(a: &[u8], b: &[u8]) -> bool
    ensures { result ≡ same_text a.now b.now }
{
    a == b
}

/// Whether two strings have the same units.
#[tactic(auto, using(crate::proofs::Texts::text_is))]
pub fn same_units(a: &[u16], b: &[u16]) -> bool
    ensures { result ≡ same_text a.now b.now }
{
    a == b
}
