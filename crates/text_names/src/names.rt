//! The names of a tree.

ghost use Rattle.std.specs.Prelude.{◌≡◌, ◌+◌, ◌||◌, IfOk, if◌then◌else◌, is_some, length, option_map};
ghost use Rattle.std.specs.Str.{bytes_eq};
ghost use Rattle.dart_meaning.specs.Means.{print_name};
ghost use Rattle.declaration_rules.specs.Known.{is_built_in_of, is_one_of, class_names};
ghost use Rattle.declaration_rules.specs.Mixing.{is_method_in, is_accessor_in};
ghost use Rattle.dart_syntax.specs.View.{unit};
ghost use Rattle.dart_meaning.specs.Classes as declared;
ghost use Rattle.dart_meaning.specs.Means as m;
ghost use Rattle.static_rules.specs.Members as members;
ghost use Rattle.static_rules.specs.Statics as statics;
ghost use Rattle.static_rules.specs.Statics.{static_of};
ghost use Rattle.static_rules.specs.AbstractMade.{is_unmade};
ghost use Rattle.static_rules.specs.WrongArgumentsOfStatic.{constructor_count, static_count, differs};
ghost use Rattle.static_rules.specs.FinalWritten.{is_fixed_static};
ghost use Rattle.text_names.specs.Maps.{in_set};
ghost use Rattle.text_names.specs.Around.{knows, around, around_of};
ghost use Rattle.text_names.specs.Tops.{stands_for, top_of};
ghost use Rattle.text_names.specs.Exact.{IsExact};
ghost use Rattle.text_names.specs.Asked.{is_within, params_of, count_of};

use crate::class_names::{ClassNames, classes_by_name};
use crate::known::is_in;
use crate::noted::{Sort, names_in};
use crate::tops::tops_by_name;
use dart_syntax::tree::{ClassDecl, Top, Tree};
use declaration_rules::{classes_of, is_accessor_in, is_built_in, is_class_of, is_method_in};
use program::Numbered;
use std::alloc::{AllocError, Global};
use std::collections::{HashMap, HashSet};

/// Which of a class's own names are asked for.
#[derive(Clone, Copy, Debug, PartialEq, Eq)]
pub enum Within {
    Members,
    Fields,
    /// The final fields with an initialiser.
    Initialised,
}

/// Whether a class that is known has such a name.
pub fn is_within(within: Within, class: Option<&ClassNames>, name: &[u8]) -> bool
    ensures { result ≡ is_within within (option_map (λ n. around_of n.now) class.entry) name.now }
{
    match class {
        None => false,
        Some(n) => match within {
            Within::Members => is_in(&n.members, name),
            Within::Fields => is_in(&n.fields, name),
            Within::Initialised => is_in(&n.initialised, name),
        },
    }
}

const PRINT: &[u8] = b"print";

const OBJECT: &[u8] = b"Object";

/// A variable of the text.
fn is_variable(t: Option<&Top>) -> bool
    ensures { result ≡ statics.is_variable (static_of (option_map top_of t.entry)) }
{
    match t {
        None => false,
        Some(t) => match t {
            Top::Variable(_) => true,
            Top::Class(_) | Top::Function(_) => false,
        },
    }
}

/// It may not be assigned to.
fn is_fixed(t: Option<&Top>) -> bool
    ensures { result ≡ is_fixed_static (static_of (option_map top_of t.entry)) }
{
    match t {
        None => true,
        Some(t) => match t {
            Top::Variable(v) => v.is_final,
            Top::Class(_) | Top::Function(_) => true,
        },
    }
}

/// No object of it is made.
fn is_unmade(t: Option<&Top>, name: &[u8]) -> bool
    ensures { result ≡ is_unmade name.now (static_of (option_map top_of t.entry)) }
{
    match t {
        None => name != PRINT && name != OBJECT,
        Some(t) => match t {
            Top::Class(c) => c.is_abstract,
            Top::Function(_) | Top::Variable(_) => false,
        },
    }
}

fn is_there(t: Option<&Top>) -> bool
    ensures { result ≡ is_some (option_map top_of t.entry) }
{
    match t {
        Some(_) => true,
        None => false,
    }
}

fn is_known(class: Option<&ClassNames>) -> bool
    ensures { result ≡ is_some (option_map (λ n. around_of n.now) class.entry) }
{
    match class {
        Some(_) => true,
        None => false,
    }
}

fn params_of(class: Option<&ClassNames>) -> usize
    ensures { result ≡ params_of (option_map (λ n. around_of n.now) class.entry) }
{
    match class {
        Some(n) => n.params,
        None => 0,
    }
}

/// A name that is not declared is that of a built-in class, or `print`.
fn built_in_count(name: &[u8]) -> usize
    ensures { result ≡ (if bytes_eq name.now print_name then 1 else 0) }
{
    if name == PRINT { 1 } else { 0 }
}

/// How many arguments a name takes that is called, where a constructor of this name has so many parameters.
fn count_of(t: Option<&Top>, name: &[u8], made: usize) -> Option<usize>
    ensures { result ≡ count_of made name.now (static_of (option_map top_of t.entry)) }
{
    match t {
        None => Some(built_in_count(name)),
        Some(t) => match t {
            Top::Class(_) => Some(made),
            Top::Function(f) => Some(f.params.len()),
            Top::Variable(_) => None,
        },
    }
}

fn differs(count: usize, other: Option<usize>) -> bool
    ensures { result ≡ differs count other }
{
    match other {
        None => false,
        Some(other) => count != other,
    }
}

/// No way up has more classes above the first.
fn most_above(classes: &[&ClassDecl]) -> Result<usize, AllocError>
    ensures { IfOk result (λ n. n ≡ 6 + length classes.now) }
{
    classes.len().checked_add(6).ok_or(AllocError)
}

/// The names of a tree, and what they stand for.
#[derive(Drop)]
pub struct TextNames<'a> {
    pub tree: &'a Tree,
    tops: HashMap<&'a [u8], &'a Top>,
    pub(crate) classes: HashMap<&'a [u8], ClassNames<'a>>,
    methods: HashSet<&'a [u8]>,
    accessors: HashSet<&'a [u8]>,
    pub(crate) built_in: Numbered,
    /// No way up has more classes above the first.
    pub(crate) most_above: usize,
    ghost exact: { ∥ IsExact (unit tree.now) (stands_for tops) (knows classes) (in_set methods) (in_set accessors) built_in.classes built_in.methods ∥₁ },
    ghost bounded: { most_above ≡ 6 + length (declared.classes (unit tree.now)) },
}

impl<'a> TextNames<'a> {
    /// Reads the names off a tree.
    pub fn of(alloc: Global, tree: &'a Tree) -> Result<TextNames<'a>, AllocError>
        ensures { IfOk result (λ names. names.tree ≡ tree.entry) }
    {
        let all = tree.tops.as_slice();
        let decls = classes_of(alloc, all)?;
        let methods = names_in(alloc, Sort::Method, &decls)?;
        let accessors = names_in(alloc, Sort::Accessor, &decls)?;
        let classes = classes_by_name(alloc, &decls)?;
        let tops = tops_by_name(alloc, all)?;
        let built_in = program::built_in_program(alloc)?;
        let most_above = most_above(&decls)?;
        Ok(TextNames {
            tree,
            tops,
            classes,
            methods,
            accessors,
            built_in,
            most_above,
        })
    }

    fn has_method(&self, name: &[u8]) -> bool
        ensures { result ≡ (is_method_in self.now.built_in.methods name.now || in_set self.now.methods name.now) }
    {
        is_method_in(self.built_in.methods.as_slice(), name) || is_in(&self.methods, name)
    }

    fn has_accessor(&self, name: &[u8]) -> bool
        ensures { result ≡ (is_accessor_in self.now.built_in.methods name.now || in_set self.now.accessors name.now) }
    {
        is_accessor_in(self.built_in.methods.as_slice(), name) || is_in(&self.accessors, name)
    }

    /// A method of some class.
    pub fn is_method(&self, name: &[u8]) -> bool
        ensures { result ≡ members.is_method (unit self.now.tree.now) name.now }
    {
        self.has_method(name)
    }

    /// A field, a getter or a setter of some class.
    pub fn is_accessor(&self, name: &[u8]) -> bool
        ensures { result ≡ members.is_accessor (unit self.now.tree.now) name.now }
    {
        self.has_accessor(name)
    }

    /// The class that a name stands for.
    #[tactic(auto, unfolding(crate::specs::Around::knows, crate::specs::Maps::in_map))]
    pub(crate) fn class<'s>(&'s self, name: &'s [u8]) -> Option<&'s ClassNames<'s>>
        ensures { option_map (λ n. around_of n.now) result ≡ knows self.now.classes name.now }
    {
        self.classes.get(&name)
    }

    /// The declaration that a name stands for.
    #[tactic(auto, unfolding(crate::specs::Tops::stands_for, crate::specs::Maps::in_map))]
    fn top(&self, name: &[u8]) -> Option<&'a Top>
        ensures { option_map top_of result ≡ stands_for self.now.tops name.now }
    {
        self.tops.get(&name).copied()
    }

    fn has_top(&self, name: &[u8]) -> bool
        ensures { result ≡ (is_some (stands_for self.now.tops name.now) || is_built_in_of (class_names self.now.built_in.classes) name.now) }
    {
        is_there(self.top(name)) || is_built_in(self.built_in.classes.as_slice(), name)
    }

    fn has_class(&self, name: &[u8]) -> bool
        ensures { result ≡ (is_some (knows self.now.classes name.now) || is_one_of (class_names self.now.built_in.classes) name.now) }
    {
        is_known(self.class(name)) || is_class_of(self.built_in.classes.as_slice(), name)
    }

    /// A declaration of the text, a built-in class or `print`.
    pub fn is_top(&self, name: &[u8]) -> bool
        ensures { result ≡ m.is_top (unit self.now.tree.now) name.now }
    {
        self.has_top(name)
    }

    pub fn is_class(&self, name: &[u8]) -> bool
        ensures { result ≡ m.is_class (unit self.now.tree.now) name.now }
    {
        self.has_class(name)
    }

    pub fn is_variable(&self, name: &[u8]) -> bool
        ensures { result ≡ statics.is_variable (statics.static_named (unit self.now.tree.now) name.now) }
    {
        is_variable(self.top(name))
    }

    /// It may not be assigned to.
    pub fn is_fixed(&self, name: &[u8]) -> bool
        ensures { result ≡ is_fixed_static (statics.static_named (unit self.now.tree.now) name.now) }
    {
        is_fixed(self.top(name))
    }

    /// No object of it is made.
    pub fn is_unmade(&self, name: &[u8]) -> bool
        ensures { result ≡ is_unmade name.now (statics.static_named (unit self.now.tree.now) name.now) }
    {
        is_unmade(self.top(name), name)
    }

    /// How many arguments the constructor of a class takes.
    pub fn constructor_count(&self, class: &[u8]) -> usize
        ensures { result ≡ constructor_count (unit self.now.tree.now) class.now }
    {
        params_of(self.class(class))
    }

    /// How many arguments a name takes that is called.
    fn static_count(&self, name: &[u8]) -> Option<usize>
        ensures { result ≡ static_count (unit self.now.tree.now) name.now (statics.static_named (unit self.now.tree.now) name.now) }
    {
        let made = self.constructor_count(name);
        count_of(self.top(name), name, made)
    }

    /// It is called with another number of arguments.
    pub fn takes_other(&self, name: &[u8], count: usize) -> bool
        ensures { result ≡ differs count (static_count (unit self.now.tree.now) name.now (statics.static_named (unit self.now.tree.now) name.now)) }
    {
        differs(count, self.static_count(name))
    }
}
