//! The names of classes and of their members.

ghost use Rattle.std.specs.Prelude.{◌≡◌, OnOk, IfOk, map};
ghost use Rattle.dart_syntax.specs.View.{class};
ghost use Rattle.declaration_rules.specs.Seen.{class_of};
ghost use Rattle.text_names.specs.Maps.{with_first, nothing_known};
ghost use Rattle.text_names.specs.Around.{around, around_of, knows, also_classes};

use crate::known::{keep_first, nothing_known};
use crate::noted::{Sort, names_of};
use crate::reached::{Takes, constructor_params, members_of};
use dart_syntax::tree::ClassDecl;
use program::SelectorKind;
use std::alloc::{AllocError, Global};
use std::collections::{HashMap, HashSet};

/// A class, and its members by their names.
#[derive(Drop)]
pub struct ClassNames<'a> {
    pub decl: &'a ClassDecl,
    pub members: HashSet<&'a [u8]>,
    pub fields: HashSet<&'a [u8]>,
    /// The final fields with an initialiser.
    pub initialised: HashSet<&'a [u8]>,
    /// The members with a body, by the kind of what calls them.
    pub reads: HashMap<&'a [u8], Takes>,
    pub writes: HashMap<&'a [u8], Takes>,
    pub calls: HashMap<&'a [u8], Takes>,
    /// How many parameters its constructor has.
    pub params: usize,
}

/// What is known of a class.
fn names_around(alloc: Global, c: &ClassDecl) -> Result<ClassNames<'_>, AllocError>
    ensures { IfOk result (λ n. around_of n ≡ around (class c.now)) }
{
    let all = c.members.as_slice();
    Ok(ClassNames {
        decl: c,
        members: names_of(alloc, Sort::Named, all)?,
        fields: names_of(alloc, Sort::Field, all)?,
        initialised: names_of(alloc, Sort::Initialised, all)?,
        reads: members_of(alloc, SelectorKind::Get, all)?,
        writes: members_of(alloc, SelectorKind::Set, all)?,
        calls: members_of(alloc, SelectorKind::Call, all)?,
        params: constructor_params(all),
    })
}

/// No class.
fn no_classes<'a>(alloc: Global) -> HashMap<&'a [u8], ClassNames<'a>>
    ensures { knows result ≡ nothing_known }
{
    nothing_known(alloc)
}

fn keep_class<'a>(
    alloc: Global,
    known: &mut HashMap<&'a [u8], ClassNames<'a>>,
    c: &'a ClassDecl,
) -> Result<(), AllocError>
    ensures { OnOk result (knows known.new ≡ with_first (class c.now).name.text (around (class c.now)) (knows known.old)) }
{
    let names = names_around(alloc, c)?;
    keep_first(known, c.name.text.as_slice(), names)?;
    Ok(())
}

/// The classes by their names.
pub fn classes_by_name<'a>(
    alloc: Global,
    classes: &[&'a ClassDecl],
) -> Result<HashMap<&'a [u8], ClassNames<'a>>, AllocError>
    ensures { IfOk result (λ known. knows known ≡ also_classes (map class_of classes.now) nothing_known) }
{
    let mut known = no_classes(alloc);
    for c in classes {
        keep_class(alloc, &mut known, c)?;
    }
    Ok(known)
}
