//! The built-in classes and members.

ghost use Rattle.std.specs.Prelude.{◌≡◌, map, IfOk};
ghost use Rattle.std.specs.List.{list_any};
ghost use Rattle.std.specs.Str.{bytes_eq};
ghost use Rattle.program.specs.BuiltIn.{built_in_classes, built_in_members};
ghost use Rattle.declaration_rules.specs.Known.{class_names, is_one_of, is_built_in_of};

use program::{Class, Numbered};
use std::alloc::{AllocError, Global};

const PRINT: &[u8] = b"print";

/// A program of the built-in classes and members alone.
pub fn built_ins(alloc: Global) -> Result<Numbered, AllocError>
    ensures classes { IfOk result (λ p. p.classes ≡ built_in_classes) }
    ensures members { IfOk result (λ p. p.methods ≡ built_in_members) }
{
    program::built_in_program(alloc)
}

fn is_named(classes: &[Class], name: &[u8]) -> bool
    ensures { result ≡ list_any (λ k. bytes_eq name.now k.name) classes.now }
{
    classes.iter().any(|class| name == class.name.as_slice())
}

/// Whether one of these classes has the name.
pub fn is_class_of(classes: &[Class], name: &[u8]) -> bool
    ensures { result ≡ is_one_of (class_names classes.now) name.now }
{
    is_named(classes, name)
}

/// The same, or `print` has it.
pub fn is_built_in(classes: &[Class], name: &[u8]) -> bool
    ensures { result ≡ is_built_in_of (class_names classes.now) name.now }
{
    is_class_of(classes, name) || PRINT == name
}
