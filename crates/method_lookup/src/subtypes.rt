// Tests of types.
ghost use Rattle.std.specs.Prelude.{◌≡◌, ◌<◌, ◌++◌, [], ◌∷◌, ℕ, List, length};
ghost use Rattle.program.specs.Hierarchy.{is_subtype};
ghost use Rattle.program.specs.Parts.{supers};
ghost use Rattle.method_lookup.specs.declared.linked.Linked.{Linked};

use crate::linked::Linked;
use program::ClassId;

/// What answers whether a class is another, or below it.
pub trait Subtypes {
    /// It was made for this program.
    ghost fits: { Self → Linked → Type 0 };

    /// What a list of tests, each of two classes, does to it.
    ghost After: { Self → List (ℕ × ℕ) → Self → Type 0 };

    /// Whether class `b` is `a`, or above it by `extends` and `implements`.
    fn ask(&mut self, linked: &Linked, a: ClassId, b: ClassId) -> bool
        requires made { fits self.old linked.now }
        requires a_there { a.0 < length linked.now.program.classes }
        requires b_there { b.0 < length linked.now.program.classes }
        ensures answer { result ≡ is_subtype (supers linked.now.program.classes) a.0 b.0 }
        ensures made { fits self.new linked.now }
        ensures after { After self.old ((a.0, b.0) ∷ []) self.new };

    /// No test leaves it as it is.
    ghost after_none: { (types : Self) → After types [] types };

    /// Tests that follow each other are one list.
    ghost after_both: { (a b c : Self) (first second : List (ℕ × ℕ)) → After a first b → After b second c → After a (first ++ second) c };
}

/// The class table answers; nothing is remembered.
#[derive(Drop)]
pub struct PlainSubtypes;

impl Subtypes for PlainSubtypes {
    ghost fits = { λ _ _. Unit {0} };

    ghost After = { λ _ _ _. Unit {0} };

    ghost after_none = { λ _. tt };

    ghost after_both = { λ _ _ _ _ _ _ _. tt };

    fn ask(&mut self, linked: &Linked, a: ClassId, b: ClassId) -> bool
        requires a_there { a.0 < length linked.now.program.classes }
        requires b_there { b.0 < length linked.now.program.classes }
        ensures { result ≡ is_subtype (supers linked.now.program.classes) a.0 b.0 }
    {
        linked.classes().is_subtype(a, b)
    }
}
