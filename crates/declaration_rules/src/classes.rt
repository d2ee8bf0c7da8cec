//! The classes of a tree.

ghost use Rattle.std.specs.Prelude.{◌≡◌, map, filter_map, IfOk, OnOk, option_map, ◌||◌, ◌++◌};
ghost use Rattle.dart_syntax.specs.View.{class, top};
ghost use Rattle.std.specs.Str.{bytes_eq};
ghost use Rattle.dart_meaning.specs.Classes.{class_at, if_so};
ghost use Rattle.declaration_rules.specs.Finding.{found_in, named_of, or_first};
ghost use Rattle.declaration_rules.specs.Known.{is_declared};
ghost use Rattle.declaration_rules.specs.Seen.{has, class_of};

use crate::repeats::note;
use dart_syntax::tree::{ClassDecl, Top};
use std::alloc::{AllocError, Global};
use std::collections::{HashMap, HashSet};

fn class_at(t: &Top) -> Option<&ClassDecl>
    ensures { option_map class_of result ≡ class_at (top t.now) }
{
    match t {
        Top::Class(c) => Some(c),
        Top::Function(_) | Top::Variable(_) => None,
    }
}

/// The classes, in the order of the text.
pub fn classes_of(alloc: Global, tops: &[Top]) -> Result<Vec<&ClassDecl>, AllocError>
    ensures { IfOk result (λ all. map class_of all.items ≡ filter_map class_at (map top tops.now)) }
{
    let mut all = Vec::new(alloc);
    for t in tops {
        if let Some(c) = class_at(t) {
            all.push(c)?;
        }
    }
    Ok(all)
}

/// The names of the classes.
pub fn names_of<'a>(
    alloc: Global,
    classes: &[&'a ClassDecl],
) -> Result<HashSet<&'a [u8]>, AllocError>
    ensures { IfOk result (λ known. (q : _) → has known q ≡ is_declared (map class_of classes.now) q) }
{
    let mut known = HashSet::new(alloc);
    for c in classes {
        note(&mut known, c.name.text.as_slice())?;
    }
    Ok(known)
}

/// Takes a class to those that are known by their names, unless one of its name is.
fn keep_first<'a>(
    known: &mut HashMap<&'a [u8], &'a ClassDecl>,
    c: &'a ClassDecl,
) -> Result<(), AllocError>
    ensures { OnOk result ((q : _) → found_in known.new q ≡ or_first (found_in known.old q) (if_so (bytes_eq c.now.name.text q) (class c.now))) }
{
    let text = c.name.text.as_slice();
    if known.contains_key(&text) {
        return Ok(());
    }
    known.insert(text, c)?;
    Ok(())
}

/// The classes by their names, the first of each name.
pub fn classes_by_name<'a>(
    alloc: Global,
    classes: &[&'a ClassDecl],
) -> Result<HashMap<&'a [u8], &'a ClassDecl>, AllocError>
    ensures { IfOk result (λ known. (q : _) → found_in known q ≡ named_of (map class_of classes.now) q) }
{
    let mut known = HashMap::new(alloc);
    for c in classes {
        keep_first(&mut known, c)?;
    }
    Ok(known)
}
