//! The declarations of a tree, by their kinds.

ghost use Rattle.std.specs.Prelude.{◌≡◌, map, filter_map, IfOk, option_map};
ghost use Rattle.dart_syntax.specs.View.{top};
ghost use Rattle.dart_meaning.specs.Classes.{class_at};
ghost use Rattle.tree_numbers.specs.Parts.{text_of, texts, class_of, function_name, variable_name, field_name};
ghost use Rattle.dart_syntax.specs.View.{member};

use dart_syntax::tree::{ClassDecl, Member, Top};
use std::alloc::{AllocError, Global};

fn class_at(t: &Top) -> Option<&ClassDecl>
    ensures { option_map class_of result ≡ class_at (top t.now) }
{
    match t {
        Top::Class(c) => Some(c),
        Top::Function(_) | Top::Variable(_) => None,
    }
}

/// The classes, in the order of the text.
pub fn classes_of(alloc: Global, tops: &[Top]) -> Result<Vec<&ClassDecl>, AllocError>
    ensures { IfOk result (λ all. map class_of all.items ≡ filter_map class_at (map top tops.now)) }
{
    let mut all = Vec::new(alloc);
    for t in tops {
        if let Some(c) = class_at(t) {
            all.push(c)?;
        }
    }
    Ok(all)
}

fn function_name(t: &Top) -> Option<&[u8]>
    ensures { option_map text_of result ≡ function_name (top t.now) }
{
    match t {
        Top::Function(f) => Some(f.name.text.as_slice()),
        Top::Class(_) | Top::Variable(_) => None,
    }
}

/// The names of the functions, in the order of the text.
pub fn function_names(alloc: Global, tops: &[Top]) -> Result<Vec<&[u8]>, AllocError>
    ensures { IfOk result (λ all. texts all.items ≡ filter_map function_name (map top tops.now)) }
{
    let mut all = Vec::new(alloc);
    for t in tops {
        if let Some(name) = function_name(t) {
            all.push(name)?;
        }
    }
    Ok(all)
}

fn variable_name(t: &Top) -> Option<&[u8]>
    ensures { option_map text_of result ≡ variable_name (top t.now) }
{
    match t {
        Top::Variable(v) => Some(v.name.text.as_slice()),
        Top::Class(_) | Top::Function(_) => None,
    }
}

/// The names of the variables.
pub fn variable_names(alloc: Global, tops: &[Top]) -> Result<Vec<&[u8]>, AllocError>
    ensures { IfOk result (λ all. texts all.items ≡ filter_map variable_name (map top tops.now)) }
{
    let mut all = Vec::new(alloc);
    for t in tops {
        if let Some(name) = variable_name(t) {
            all.push(name)?;
        }
    }
    Ok(all)
}

fn field_name(m: &Member) -> Option<&[u8]>
    ensures { option_map text_of result ≡ field_name (member m.now) }
{
    match m {
        Member::Field(l) => Some(l.name.text.as_slice()),
        Member::Method(_, _, _)
        | Member::Getter(_, _)
        | Member::Setter(_, _, _)
        | Member::Operator(_, _, _, _)
        | Member::Constructor(_, _, _, _) => None,
    }
}

/// The names of the fields among members.
pub fn field_names(alloc: Global, members: &[Member]) -> Result<Vec<&[u8]>, AllocError>
    ensures { IfOk result (λ all. texts all.items ≡ filter_map field_name (map member members.now)) }
{
    let mut all = Vec::new(alloc);
    for m in members {
        if let Some(name) = field_name(m) {
            all.push(name)?;
        }
    }
    Ok(all)
}
