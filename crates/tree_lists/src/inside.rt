//! What is around a body: the numbers of a tree and of its call sites, and the class that holds the body.

ghost use Rattle.std.specs.Prelude.{◌≡◌, option_map};
ghost use Rattle.dart_syntax.specs.Syntax as t;
ghost use Rattle.dart_syntax.specs.View as view;
ghost use Rattle.dart_meaning.specs.Place.{reading, writing};
ghost use Rattle.dart_meaning.specs.Sites.{site_of};
ghost use Rattle.tree_numbers.specs.Parts.{text_of};

use body_numbers::Numbers;
use dart_syntax::token::Span;
use program::{ClassId, MethodId, SelectorKind, SiteId};
use tree_numbers::TreeNumbers;

/// The numbers of a tree's call sites, by their places.
pub trait SiteNumbers {
    ghost tree: { Self → t.Tree };

    /// The site of a call or of a read.
    fn reading(&self, at: Span) -> SiteId
        ensures { result.0 ≡ site_of (tree self.now) (reading at.start) };

    /// The site of a write.
    fn writing(&self, at: Span) -> SiteId
        ensures { result.0 ≡ site_of (tree self.now) (writing at.start) };
}

/// What is around the bodies of one class, or of the functions.
#[derive(Drop)]
pub struct Inside<'t, 'a, S> {
    pub numbers: &'t TreeNumbers<'a>,
    pub sites: &'t S,
    pub here: Option<&'a [u8]>,
}

impl<'t, 'a, S: SiteNumbers> Numbers for Inside<'t, 'a, S> {
    ghost tree = { λ s. view.unit s.numbers.now.tree.now };

    ghost site_of = { λ s place. site_of (S.tree s.sites.now) place };

    ghost here = { λ s. option_map text_of s.here };

    fn site(&self, at: Span) -> SiteId {
        self.sites.reading(at)
    }

    fn writing_site(&self, at: Span) -> SiteId {
        self.sites.writing(at)
    }

    fn class_declares(&self, name: &[u8]) -> bool {
        self.numbers.class_declares(self.here, name)
    }

    fn variable_place(&self, name: &[u8]) -> Option<u32> {
        self.numbers.variable_place(name)
    }

    fn function_number(&self, name: &[u8]) -> Option<u32> {
        self.numbers.function_number(name)
    }

    fn is_constructed(&self, name: &[u8]) -> bool {
        self.numbers.is_constructed(name)
    }

    fn class_number(&self, name: &[u8]) -> ClassId {
        self.numbers.class_number(name)
    }

    fn super_number(&self, kind: SelectorKind, name: &[u8]) -> MethodId {
        self.numbers.super_number(self.here, kind, name)
    }
}
