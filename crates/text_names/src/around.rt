//! What is around a part: the class that holds it, and what `super` reaches.

ghost use Rattle.std.specs.Prelude.{◌≡◌, is_some, option_map, map, unwrap_or};
ghost use Rattle.std.specs.Option.{option_and_then};
ghost use Rattle.dart_syntax.specs.View.{unit};
ghost use Rattle.dart_meaning.specs.Classes.{own, parent, chain_above, first_some, object};
ghost use Rattle.dart_meaning.specs.Classes as classes;
ghost use Rattle.dart_meaning.specs.Means as m;
ghost use Rattle.program.specs.declared.numbered.SelectorKind.TheVariants as kind;
ghost use Rattle.name_uses.specs.Found.{part_of};
ghost use Rattle.name_uses.specs.Looked.{looked_class};
ghost use Rattle.static_rules.specs.UndefinedName.{has_field};
ghost use Rattle.static_rules.specs.FinalWritten.{is_initialised};
ghost use Rattle.static_rules.specs.WrongArgumentsOfStatic.{constructor_count, is_wrong_super, super_count};
ghost use Rattle.text_names.specs.Around.{knows, around_of};
ghost use Rattle.text_names.specs.Reached.{takes_of};
ghost use Rattle.text_names.specs.Above.{own_takes, own_of, nearest, named_around, super_by, count_by_class};

use crate::above::{is_other, own_takes, parent_in};
use crate::class_names::ClassNames;
use crate::names::{TextNames, Within, is_within};
use crate::reached::Takes;
use name_uses::Part;
use program::SelectorKind;

const OBJECT: &[u8] = b"Object";

impl<'a> TextNames<'a> {
    /// The class that has the name of the one that holds a part.
    fn own_class<'s>(&'s self, part: &'s Part) -> Option<&'s ClassNames<'s>>
        ensures { option_map (λ n. around_of n.now) result ≡ named_around (knows self.now.classes) (part_of part.now).class }
    {
        match part.class {
            Some(c) => self.class(c.name.text.as_slice()),
            None => None,
        }
    }

    /// The class that holds the part declares a member of this name.
    pub fn is_own_member(&self, part: &Part, name: &[u8]) -> bool
        ensures { result ≡ classes.is_own_member (looked_class (unit self.now.tree.now) (part_of part.now).class) name.now }
    {
        is_within(Within::Members, self.own_class(part), name)
    }

    /// It declares a field of this name.
    pub fn has_field(&self, part: &Part, name: &[u8]) -> bool
        ensures { result ≡ has_field (looked_class (unit self.now.tree.now) (part_of part.now).class) name.now }
    {
        is_within(Within::Fields, self.own_class(part), name)
    }

    /// The same of a final field with an initialiser.
    pub fn is_initialised(&self, part: &Part, name: &[u8]) -> bool
        ensures { result ≡ is_initialised (looked_class (unit self.now.tree.now) (part_of part.now).class) name.now }
    {
        is_within(Within::Initialised, self.own_class(part), name)
    }
}

impl<'a> TextNames<'a> {
    fn held_takes(&self, kind: SelectorKind, class: &[u8], name: &[u8]) -> Option<Takes>
        ensures { result ≡ own_takes self.now.built_in.classes self.now.built_in.methods (knows self.now.classes class.now) class.now kind name.now }
    {
        own_takes(
            self.built_in.classes.as_slice(),
            self.built_in.methods.as_slice(),
            self.class(class),
            class,
            kind,
            name,
        )
    }

    /// What a class's own member takes.
    fn own_takes(&self, kind: SelectorKind, class: &[u8], name: &[u8]) -> Option<Takes>
        ensures { result ≡ own_of (unit self.now.tree.now) kind name.now class.now }
    {
        self.held_takes(kind, class, name)
    }

    /// The class directly above one by `extends`.
    fn parent<'s>(&'s self, class: &'s [u8]) -> Option<&'s [u8]>
        ensures { option_map (λ t. t.now) result ≡ parent (unit self.now.tree.now) class.now }
    {
        parent_in(self.class(class), class)
    }

    /// What the nearest member of a name takes, from a class up, where no more than so many classes are looked at.
    fn takes_up<'s>(
        &'s self,
        kind: SelectorKind,
        class: &'s [u8],
        name: &[u8],
        most: usize,
    ) -> Option<Takes>
        ensures { result ≡ nearest (unit self.now.tree.now) kind name.now most class.now }
    {
        let mut at = class;
        let mut left = most;
        while left > 0 {
            if let Some(takes) = self.own_takes(kind, at, name) {
                return Some(takes);
            }
            let Some(parent) = self.parent(at) else {
                return None;
            };
            at = parent;
            left -= 1;
        }
        None
    }

    fn takes_from_parent(&self, kind: SelectorKind, class: &[u8], name: &[u8]) -> Option<Takes>
        ensures { result ≡ option_and_then (nearest (unit self.now.tree.now) kind name.now self.now.most_above) (parent (unit self.now.tree.now) class.now) }
    {
        let parent = self.parent(class)?;
        self.takes_up(kind, parent, name, self.most_above)
    }

    /// What the nearest member of a name takes above a class.
    fn takes_above(&self, kind: SelectorKind, class: &[u8], name: &[u8]) -> Option<Takes>
        ensures { result ≡ option_map takes_of (first_some (map (λ c. own (unit self.now.tree.now) c kind name.now) (chain_above (unit self.now.tree.now) class.now))) }
    {
        self.takes_from_parent(kind, class, name)
    }
}

impl<'a> TextNames<'a> {
    fn super_takes_by(&self, part: &Part, kind: SelectorKind, name: &[u8]) -> Option<Takes>
        ensures { result ≡ super_by (unit self.now.tree.now) kind name.now (named_around (knows self.now.classes) (part_of part.now).class) }
    {
        let n = self.own_class(part)?;
        self.takes_above(kind, n.decl.name.text.as_slice(), name)
    }

    /// What the member takes that `super` reaches.
    fn super_takes(&self, part: &Part, kind: SelectorKind, name: &[u8]) -> Option<Takes>
        ensures { result ≡ option_map takes_of (m.super_member (unit self.now.tree.now) (looked_class (unit self.now.tree.now) (part_of part.now).class) kind name.now) }
    {
        self.super_takes_by(part, kind, name)
    }

    /// `super` reaches a member of this kind and name.
    pub fn super_has(&self, part: &Part, kind: SelectorKind, name: &[u8]) -> bool
        ensures { result ≡ is_some (m.super_member (unit self.now.tree.now) (looked_class (unit self.now.tree.now) (part_of part.now).class) kind name.now) }
    {
        self.super_takes(part, kind, name).is_some()
    }

    /// The method that `super` reaches takes another number of arguments.
    pub fn super_takes_other(&self, part: &Part, name: &[u8], count: usize) -> bool
        ensures { result ≡ is_wrong_super count (m.super_member (unit self.now.tree.now) (looked_class (unit self.now.tree.now) (part_of part.now).class) kind.Call name.now) }
    {
        is_other(self.super_takes(part, SelectorKind::Call, name), count)
    }

    /// How many arguments the constructor of the class above takes.
    fn parent_count(&self, class: &[u8]) -> usize
        ensures { result ≡ constructor_count (unit self.now.tree.now) (unwrap_or (parent (unit self.now.tree.now) class.now) object) }
    {
        match self.parent(class) {
            Some(parent) => self.constructor_count(parent),
            None => self.constructor_count(OBJECT),
        }
    }

    fn super_count_by(&self, part: &Part) -> usize
        ensures { result ≡ count_by_class (unit self.now.tree.now) (named_around (knows self.now.classes) (part_of part.now).class) }
    {
        match self.own_class(part) {
            Some(n) => self.parent_count(n.decl.name.text.as_slice()),
            None => 0,
        }
    }

    /// How many arguments the constructor of the superclass takes.
    pub fn super_count(&self, part: &Part) -> usize
        ensures { result ≡ super_count (unit self.now.tree.now) (looked_class (unit self.now.tree.now) (part_of part.now).class) }
    {
        self.super_count_by(part)
    }
}
