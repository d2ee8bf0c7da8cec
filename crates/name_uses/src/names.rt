//! What is around a body: the names of the text and of its classes.

ghost use Rattle.std.specs.Prelude.{◌≡◌, is_some};
ghost use Rattle.dart_syntax.specs.Syntax as t;
ghost use Rattle.program.specs.declared.numbered.SelectorKind.TheVariants as kind;
ghost use Rattle.dart_meaning.specs.Classes as classes;
ghost use Rattle.dart_meaning.specs.Means as m;
ghost use Rattle.name_uses.specs.Found.{part_of, kind_of};
ghost use Rattle.static_rules.specs.Members as members;
ghost use Rattle.static_rules.specs.Statics as statics;
ghost use Rattle.static_rules.specs.UndefinedName.{has_field};
ghost use Rattle.static_rules.specs.FinalWritten.{is_initialised, is_fixed_static};
ghost use Rattle.static_rules.specs.AbstractMade.{is_unmade};
ghost use Rattle.static_rules.specs.WrongArgumentsOfStatic.{differs, static_count, is_wrong_super, super_count};
ghost use Rattle.name_uses.specs.Looked.{looked_class, looked};
ghost use Rattle.name_uses.specs.Meant.{means_of};

use crate::parts::{Kind, Part};
use dart_meaning::Seen;
use dart_syntax::tree::Name;

/// The names of a tree, and what they stand for. A class that holds a part goes by its name.
pub trait Names {
    ghost tree: { Self → t.Tree };

    /// The class that holds the part declares a member of this name.
    fn is_own_member(&self, part: &Part, name: &[u8]) -> bool
        ensures { result ≡ classes.is_own_member (looked_class (tree self.now) (part_of part.now).class) name.now };

    /// The class that holds the part declares a field of this name.
    fn has_field(&self, part: &Part, name: &[u8]) -> bool
        ensures { result ≡ has_field (looked_class (tree self.now) (part_of part.now).class) name.now };

    /// The same of a final field with an initialiser.
    fn is_initialised(&self, part: &Part, name: &[u8]) -> bool
        ensures { result ≡ is_initialised (looked_class (tree self.now) (part_of part.now).class) name.now };

    /// A declaration of the text, a built-in class or `print`.
    fn is_top(&self, name: &[u8]) -> bool
        ensures { result ≡ m.is_top (tree self.now) name.now };

    fn is_class(&self, name: &[u8]) -> bool
        ensures { result ≡ m.is_class (tree self.now) name.now };

    fn is_variable(&self, name: &[u8]) -> bool
        ensures { result ≡ statics.is_variable (statics.static_named (tree self.now) name.now) };

    /// It may not be assigned to.
    fn is_fixed(&self, name: &[u8]) -> bool
        ensures { result ≡ is_fixed_static (statics.static_named (tree self.now) name.now) };

    /// No object of it is made.
    fn is_unmade(&self, name: &[u8]) -> bool
        ensures { result ≡ is_unmade name.now (statics.static_named (tree self.now) name.now) };

    /// It is called with another number of arguments.
    fn takes_other(&self, name: &[u8], count: usize) -> bool
        ensures { result ≡ differs count (static_count (tree self.now) name.now (statics.static_named (tree self.now) name.now)) };

    /// A method of some class.
    fn is_method(&self, name: &[u8]) -> bool
        ensures { result ≡ members.is_method (tree self.now) name.now };

    /// A field, a getter or a setter of some class.
    fn is_accessor(&self, name: &[u8]) -> bool
        ensures { result ≡ members.is_accessor (tree self.now) name.now };

    /// A class above has a getter of this name with a body.
    fn super_reads(&self, part: &Part, name: &[u8]) -> bool
        ensures { result ≡ is_some (m.super_member (tree self.now) (looked_class (tree self.now) (part_of part.now).class) kind.Get name.now) };

    fn super_writes(&self, part: &Part, name: &[u8]) -> bool
        ensures { result ≡ is_some (m.super_member (tree self.now) (looked_class (tree self.now) (part_of part.now).class) kind.Set name.now) };

    fn super_calls(&self, part: &Part, name: &[u8]) -> bool
        ensures { result ≡ is_some (m.super_member (tree self.now) (looked_class (tree self.now) (part_of part.now).class) kind.Call name.now) };

    /// The method above takes another number of arguments.
    fn super_takes_other(&self, part: &Part, name: &[u8], count: usize) -> bool
        ensures { result ≡ is_wrong_super count (m.super_member (tree self.now) (looked_class (tree self.now) (part_of part.now).class) kind.Call name.now) };

    /// How many arguments the constructor of the superclass takes.
    fn super_count(&self, part: &Part) -> usize
        ensures { result ≡ super_count (tree self.now) (looked_class (tree self.now) (part_of part.now).class) };
}

/// What a bare name means.
#[derive(Clone, Copy)]
pub enum Means {
    /// A local before the end of its declaration.
    TooEarly,
    /// A local or a parameter, and whether it is final.
    ALocal(bool),
    /// A member that the class declares.
    AMember,
    /// A declaration of the text, a built-in class or `print`.
    ATop,
    /// A member of `this` that the class itself does not declare.
    OfThis,
    Nothing,
}

/// Whether `this` stands for an object.
pub fn has_this(kind: Kind) -> bool
    ensures { result ≡ m.has_this (kind_of kind) }
{
    match kind {
        Kind::OfMember | Kind::OfConstructor => true,
        Kind::OfFunction | Kind::OfPassed => false,
    }
}

fn beyond<N: Names>(names: &N, part: &Part, name: &[u8]) -> Means
    ensures { means_of result ≡ m.beyond (classes.is_own_member (looked_class (N.tree names.now) (part_of part.now).class) name.now) (m.is_top (N.tree names.now) name.now) (m.has_this (part_of part.now).kind) }
{
    if names.is_own_member(part, name) {
        Means::AMember
    } else if names.is_top(name) {
        Means::ATop
    } else if has_this(part.kind) {
        Means::OfThis
    } else {
        Means::Nothing
    }
}

/// What a bare name means in a part.
pub fn meaning_of<N: Names>(names: &N, part: &Part, name: &Name, seen: Option<Seen>) -> Means
    ensures { means_of result ≡ m.means (N.tree names.now) (looked (N.tree names.now) (part_of part.now)) name.now seen }
{
    match seen {
        Some(Seen::Late) => Means::TooEarly,
        Some(Seen::Ready(is_final)) => Means::ALocal(is_final),
        None => beyond(names, part, name.text.as_slice()),
    }
}
