//! The names of a tree answer what rules ask of them.

ghost use Rattle.dart_syntax.specs.View.{unit};

use crate::names::TextNames;
use name_uses::{Names, Part};
use program::SelectorKind;

impl<'a> Names for TextNames<'a> {
    ghost tree = { λ names. unit names.tree.now };

    fn is_own_member(&self, part: &Part, name: &[u8]) -> bool {
        TextNames::is_own_member(self, part, name)
    }

    fn has_field(&self, part: &Part, name: &[u8]) -> bool {
        TextNames::has_field(self, part, name)
    }

    fn is_initialised(&self, part: &Part, name: &[u8]) -> bool {
        TextNames::is_initialised(self, part, name)
    }

    fn is_top(&self, name: &[u8]) -> bool {
        TextNames::is_top(self, name)
    }

    fn is_class(&self, name: &[u8]) -> bool {
        TextNames::is_class(self, name)
    }

    fn is_variable(&self, name: &[u8]) -> bool {
        TextNames::is_variable(self, name)
    }

    fn is_fixed(&self, name: &[u8]) -> bool {
        TextNames::is_fixed(self, name)
    }

    fn is_unmade(&self, name: &[u8]) -> bool {
        TextNames::is_unmade(self, name)
    }

    fn takes_other(&self, name: &[u8], count: usize) -> bool {
        TextNames::takes_other(self, name, count)
    }

    fn is_method(&self, name: &[u8]) -> bool {
        TextNames::is_method(self, name)
    }

    fn is_accessor(&self, name: &[u8]) -> bool {
        TextNames::is_accessor(self, name)
    }

    fn super_reads(&self, part: &Part, name: &[u8]) -> bool {
        self.super_has(part, SelectorKind::Get, name)
    }

    fn super_writes(&self, part: &Part, name: &[u8]) -> bool {
        self.super_has(part, SelectorKind::Set, name)
    }

    fn super_calls(&self, part: &Part, name: &[u8]) -> bool {
        self.super_has(part, SelectorKind::Call, name)
    }

    fn super_takes_other(&self, part: &Part, name: &[u8], count: usize) -> bool {
        TextNames::super_takes_other(self, part, name, count)
    }

    fn super_count(&self, part: &Part) -> usize {
        TextNames::super_count(self, part)
    }
}
