//! What is around a body: the numbers of the text's declarations, of members above, and of call sites.

ghost use Rattle.std.specs.Prelude.{◌≡◌, ℕ, Option};
ghost use Rattle.dart_syntax.specs.Syntax as t;
ghost use Rattle.dart_values.specs.Values.{Text};
ghost use Rattle.dart_meaning.specs.Place.{Place, reading, writing};
ghost use Rattle.dart_meaning.specs.Classes.{class_declares, class_number, is_constructed, variable_place};
ghost use Rattle.dart_meaning.specs.Numbering as num;

use dart_syntax::token::Span;
use program::{ClassId, MethodId, SelectorKind, SiteId};

/// The numbers of a tree, asked from inside one class, or from outside of all.
pub trait Numbers {
    ghost tree: { Self → t.Tree };

    /// The numbers of the call sites, by their places.
    ghost site_of: { Self → Place → ℕ };

    /// The class that holds the body, if any.
    ghost here: { Self → Option Text };

    /// The site of a call or of a read.
    fn site(&self, at: Span) -> SiteId
        ensures { result.0 ≡ site_of self.now (reading at.start) };

    /// The site of a write.
    fn writing_site(&self, at: Span) -> SiteId
        ensures { result.0 ≡ site_of self.now (writing at.start) };

    /// The class that holds the body declares a member of this name.
    fn class_declares(&self, name: &[u8]) -> bool
        ensures { result ≡ class_declares (tree self.now) (here self.now) name.now };

    /// A variable's place among the variables of the text.
    fn variable_place(&self, name: &[u8]) -> Option<u32>
        ensures { result ≡ variable_place (tree self.now) name.now };

    fn function_number(&self, name: &[u8]) -> Option<u32>
        ensures { result ≡ num.function_number (tree self.now) name.now };

    /// A call of the name makes an object.
    fn is_constructed(&self, name: &[u8]) -> bool
        ensures { result ≡ is_constructed (tree self.now) name.now };

    fn class_number(&self, name: &[u8]) -> ClassId
        ensures { result.0 ≡ class_number (tree self.now) name.now };

    /// The first such member above the class that holds the body.
    fn super_number(&self, kind: SelectorKind, name: &[u8]) -> MethodId
        ensures { result.0 ≡ num.super_number (tree self.now) (site_of self.now) (here self.now) kind name.now };
}
