//! What is counted of the declarations of a tree.

ghost use Rattle.std.specs.Prelude.{◌≡◌, ◌+◌, map, filter_map, length, sum_by, is_some, IfOk};
ghost use Rattle.dart_syntax.specs.View.{member, top, unit};
ghost use Rattle.program.specs.BuiltIn.{built_in_classes, built_in_members};
ghost use Rattle.dart_meaning.specs.Classes.{class_at, function_at};
ghost use Rattle.static_rules.specs.Accepted.{counts, methods_of, one_if};
ghost use Rattle.declaration_rules.specs.Counting.{in_class};
ghost use Rattle.declaration_rules.specs.Seen.{class_of};

use crate::built_ins::built_ins;
use crate::classes::classes_of;
use dart_syntax::tree::{ClassDecl, Member, Top, Tree};
use std::alloc::{AllocError, Global};

/// How many classes, methods and functions there are, those that are built in counted.
#[derive(Clone, Copy, Debug, PartialEq, Eq)]
pub struct Declarations {
    pub classes: usize,
    pub methods: usize,
    pub functions: usize,
}

/// A sum. No memory holds as many things as a number does not.
pub fn sum(a: usize, b: usize) -> Result<usize, AllocError>
    ensures { IfOk result (λ n. n ≡ a + b) }
{
    a.checked_add(b).ok_or(AllocError)
}

fn one_if(has_body: bool) -> usize
    ensures { result ≡ one_if has_body }
{
    if has_body { 1 } else { 0 }
}

/// How many methods a member is.
fn methods_of(m: &Member) -> usize
    ensures { result ≡ methods_of (member m.now) }
{
    match m {
        Member::Field(l) => { if l.is_final { 1 } else { 2 } }
        Member::Method(_, _, code) => one_if(code.is_some()),
        Member::Getter(_, code) => one_if(code.is_some()),
        Member::Setter(_, _, code) => one_if(code.is_some()),
        Member::Operator(_, _, _, code) => one_if(code.is_some()),
        Member::Constructor(_, _, _, _) => 0,
    }
}

fn methods_of_all(members: &[Member]) -> Result<usize, AllocError>
    ensures { IfOk result (λ n. n ≡ sum_by methods_of (map member members.now)) }
{
    let mut n = 0;
    for m in members {
        n = sum(n, methods_of(m))?;
    }
    Ok(n)
}

fn methods_of_classes(classes: &[&ClassDecl]) -> Result<usize, AllocError>
    ensures { IfOk result (λ n. n ≡ sum_by in_class (map class_of classes.now)) }
{
    let mut n = 0;
    for c in classes {
        n = sum(n, methods_of_all(c.members.as_slice())?)?;
    }
    Ok(n)
}

fn is_function(t: &Top) -> bool
    ensures { result ≡ is_some (function_at (top t.now)) }
{
    match t {
        Top::Function(_) => true,
        Top::Class(_) | Top::Variable(_) => false,
    }
}

fn function_count(tops: &[Top]) -> Result<usize, AllocError>
    ensures { IfOk result (λ n. n ≡ length (filter_map function_at (map top tops.now))) }
{
    let mut n = 0;
    for t in tops {
        n = sum(n, one_if(is_function(t)))?;
    }
    Ok(n)
}

/// How many classes and methods are built in.
fn built_in_counts(alloc: Global) -> Result<(usize, usize), AllocError>
    ensures classes { IfOk result (λ n. n.0 ≡ length built_in_classes) }
    ensures methods { IfOk result (λ n. n.1 ≡ length built_in_members) }
{
    let built_in = built_ins(alloc)?;
    Ok((built_in.classes.len(), built_in.methods.len()))
}

/// How many classes a text has, and how many methods these have.
fn counts_of_classes(alloc: Global, tops: &[Top]) -> Result<(usize, usize), AllocError>
    ensures classes { IfOk result (λ n. n.0 ≡ length (filter_map class_at (map top tops.now))) }
    ensures methods { IfOk result (λ n. n.1 ≡ sum_by in_class (filter_map class_at (map top tops.now))) }
{
    let classes = classes_of(alloc, tops)?;
    Ok((classes.len(), methods_of_classes(&classes)?))
}

/// Counts the declarations of a tree.
pub fn count_declarations(alloc: Global, tree: &Tree) -> Result<Declarations, AllocError>
    ensures classes { IfOk result (λ d. d.classes ≡ (counts (unit tree.now)).classes) }
    ensures methods { IfOk result (λ d. d.methods ≡ (counts (unit tree.now)).methods) }
    ensures functions { IfOk result (λ d. d.functions ≡ (counts (unit tree.now)).functions) }
{
    let tops = tree.tops.as_slice();
    let (built_in, built_in_methods) = built_in_counts(alloc)?;
    let (classes, methods) = counts_of_classes(alloc, tops)?;
    Ok(Declarations {
        classes: sum(built_in, classes)?,
        methods: sum(built_in_methods, methods)?,
        functions: sum(function_count(tops)?, classes)?,
    })
}
