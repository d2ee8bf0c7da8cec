//! What members take: those of built-in classes, and those of a class that is known.

ghost use Rattle.std.specs.Prelude.{◌≡◌, option_map, position};
ghost use Rattle.std.specs.Str.{bytes_eq};
ghost use Rattle.program.specs.Lookup.{is_declared_by};
ghost use Rattle.text_names.specs.Around.{around_of};
ghost use Rattle.text_names.specs.Above.{required_of, exactly, built_in_takes, reached_by, own_takes, parent_in, is_other};

use crate::class_names::ClassNames;
use crate::known::known_of;
use crate::reached::{Takes, same_kind};
use program::{Class, Method, SelectorKind};

const OBJECT: &[u8] = b"Object";

fn class_place(classes: &[Class], class: &[u8]) -> Option<usize>
    ensures { result ≡ position (λ k. bytes_eq class.now k.name) classes.now }
{
    classes.iter().position(|k| class == k.name.as_slice())
}

fn is_declared_by(m: &Method, number: usize, kind: SelectorKind, name: &[u8]) -> bool
    ensures { result ≡ is_declared_by number kind name.now m.now }
{
    usize::from(m.owner.0) == number && same_kind(m.role, kind) && m.name.as_slice() == name
}

/// The parameters of the first member of a class that has this kind and name.
fn required_of(methods: &[Method], number: usize, kind: SelectorKind, name: &[u8]) -> Option<usize>
    ensures { result ≡ required_of methods.now number kind name.now }
{
    for m in methods {
        if is_declared_by(m, number, kind, name) {
            return Some(m.required as usize);
        }
    }
    None
}

fn exactly(count: Option<usize>) -> Option<Takes>
    ensures { result ≡ option_map exactly count }
{
    match count {
        Some(count) => Some(Takes {
            least: count,
            most: count,
        }),
        None => None,
    }
}

/// What a member of a built-in class takes.
fn built_in_takes(
    classes: &[Class],
    methods: &[Method],
    class: &[u8],
    kind: SelectorKind,
    name: &[u8],
) -> Option<Takes>
    ensures { result ≡ built_in_takes classes.now methods.now class.now kind name.now }
{
    let number = class_place(classes, class)?;
    exactly(required_of(methods, number, kind, name))
}

fn reached_by(n: &ClassNames, kind: SelectorKind, name: &[u8]) -> Option<Takes>
    ensures { result ≡ reached_by kind (around_of n.now) name.now }
{
    match kind {
        SelectorKind::Call => known_of(&n.calls, name),
        SelectorKind::Get => known_of(&n.reads, name),
        SelectorKind::Set => known_of(&n.writes, name),
    }
}

/// What a class's own member takes. A class that is not known is a built-in one.
pub fn own_takes(
    classes: &[Class],
    methods: &[Method],
    known: Option<&ClassNames>,
    class: &[u8],
    kind: SelectorKind,
    name: &[u8],
) -> Option<Takes>
    ensures { result ≡ own_takes classes.now methods.now (option_map (λ n. around_of n.now) known.entry) class.now kind name.now }
{
    match known {
        Some(n) => reached_by(n, kind, name),
        None => built_in_takes(classes, methods, class, kind, name),
    }
}

/// The class directly above one by `extends`.
pub fn parent_in<'s>(known: Option<&'s ClassNames<'s>>, class: &[u8]) -> Option<&'s [u8]>
    ensures { option_map (λ t. t.now) result ≡ parent_in (option_map (λ n. around_of n.now) known.entry) class.now }
{
    match known {
        Some(n) => match &n.decl.parent {
            Some(parent) => Some(parent.text.as_slice()),
            None => Some(OBJECT),
        },
        None => { if class == OBJECT { None } else { Some(OBJECT) } }
    }
}

/// A member is there that takes another number of arguments.
pub fn is_other(takes: Option<Takes>, count: usize) -> bool
    ensures { result ≡ is_other takes count }
{
    match takes {
        Some(takes) => !(takes.least <= count && count <= takes.most),
        None => false,
    }
}
