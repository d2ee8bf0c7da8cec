//! The classes of the program.

ghost use Rattle.std.specs.Prelude.{◌≡◌, IfOk, map, option_map, length, Some, None};
ghost use Rattle.dart_syntax.specs.View as view;
ghost use Rattle.dart_meaning.specs.Classes as c;
ghost use Rattle.dart_meaning.specs.Forms.{class_form};
ghost use Rattle.dart_meaning.specs.NumberedForm.{numbered_class};
ghost use Rattle.tree_numbers.specs.ClassFacts.{knows};
ghost use Rattle.tree_numbers.specs.Asked.{known_of};
ghost use Rattle.tree_numbers.specs.Parts.{class_of, text_of, texts};

use crate::constructors::first_constructor;
use crate::fields::fields;
use crate::inside::{Inside, SiteNumbers};
use dart_syntax::tree::{ClassDecl, Name};
use ds_base::NoMemory;
use program::{Class, ClassId};
use sqlite_items::Items;
use std::alloc::Global;
use tree_numbers::TreeNumbers;

fn parent_number(numbers: &TreeNumbers, name: &[u8]) -> Option<ClassId>
    ensures { option_map (λ d. d.0) result ≡ option_map (c.class_number (view.unit numbers.now.tree.now)) (c.parent (view.unit numbers.now.tree.now) name.now) }
{
    match numbers.parent(name) {
        Some(above) => Some(numbers.class_number(above)),
        None => None,
    }
}

fn interface_numbers(
    alloc: Global,
    numbers: &TreeNumbers,
    names: &[Name],
) -> Result<Items<ClassId>, NoMemory>
    ensures { IfOk result (λ all. map (λ d. d.0) all ≡ map (c.class_number (view.unit numbers.now.tree.now)) (map (λ n. n.text) names.now)) }
{
    let mut all = Items::new(alloc);
    for name in names {
        all.push(numbers.class_number(name.text.as_slice()))?;
    }
    Ok(all)
}

/// A class that the text declares.
fn declared<'a, S: SiteNumbers>(
    alloc: Global,
    inside: &Inside<S>,
    name: &[u8],
    above: usize,
    decl: &'a ClassDecl,
) -> Result<Class, NoMemory>
    requires sites { S.tree inside.now.sites.now ≡ view.unit inside.now.numbers.now.tree.now }
    requires here { option_map text_of inside.now.here ≡ Some name.now }
    requires above { above ≡ length (c.fields_above (view.unit inside.now.numbers.now.tree.now) name.now) }
    ensures { IfOk result (λ k. c.class_named (view.unit inside.now.numbers.now.tree.now) name.now ≡ Some (view.class decl.now) → class_form k ≡ numbered_class (view.unit inside.now.numbers.now.tree.now) name.now) }
{
    let members = decl.members.as_slice();
    Ok(Class {
        name: Items::from_slice(alloc, name)?,
        parent: parent_number(inside.numbers, name),
        interfaces: interface_numbers(alloc, inside.numbers, decl.interfaces.as_slice())?,
        is_abstract: decl.is_abstract,
        fields: fields(alloc, members)?,
        constructor: first_constructor(alloc, inside, name, above, members)?,
    })
}

/// A class that the text does not declare.
fn undeclared(alloc: Global, numbers: &TreeNumbers, name: &[u8]) -> Result<Class, NoMemory>
    ensures { IfOk result (λ k. c.class_named (view.unit numbers.now.tree.now) name.now ≡ None → class_form k ≡ numbered_class (view.unit numbers.now.tree.now) name.now) }
{
    Ok(Class {
        name: Items::from_slice(alloc, name)?,
        parent: parent_number(numbers, name),
        interfaces: Items::new(alloc),
        is_abstract: false,
        fields: Items::new(alloc),
        constructor: None,
    })
}

fn class_by<'a, S: SiteNumbers>(
    alloc: Global,
    inside: &Inside<S>,
    name: &[u8],
    above: usize,
    decl: Option<&'a ClassDecl>,
) -> Result<Class, NoMemory>
    requires sites { S.tree inside.now.sites.now ≡ view.unit inside.now.numbers.now.tree.now }
    requires here { option_map text_of inside.now.here ≡ Some name.now }
    requires above { above ≡ length (c.fields_above (view.unit inside.now.numbers.now.tree.now) name.now) }
    ensures { IfOk result (λ k. c.class_named (view.unit inside.now.numbers.now.tree.now) name.now ≡ option_map class_of decl.entry → class_form k ≡ numbered_class (view.unit inside.now.numbers.now.tree.now) name.now) }
{
    match decl {
        Some(decl) => {
            let k = declared(alloc, inside, name, above, decl)?;
            Ok(k)
        }
        None => {
            let k = undeclared(alloc, inside.numbers, name)?;
            Ok(k)
        }
    }
}

/// The class of a name.
fn class<'a, S: SiteNumbers>(
    alloc: Global,
    numbers: &TreeNumbers<'a>,
    sites: &S,
    name: &'a [u8],
) -> Result<Class, NoMemory>
    requires sites { S.tree sites.now ≡ view.unit numbers.now.tree.now }
    requires known { knows numbers.now.classes ≡ known_of (view.unit numbers.now.tree.now) }
    ensures { IfOk result (λ k. class_form k ≡ numbered_class (view.unit numbers.now.tree.now) name.now) }
{
    let inside = Inside {
        numbers,
        sites,
        here: Some(name),
    };
    let above = numbers.fields_above(name)?;
    let k = class_by(alloc, &inside, name, above, numbers.decl(name))?;
    Ok(k)
}

/// The classes of these names.
pub fn classes_named<'a, S: SiteNumbers>(
    alloc: Global,
    numbers: &TreeNumbers<'a>,
    sites: &S,
    names: &[&'a [u8]],
) -> Result<Items<Class>, NoMemory>
    requires sites { S.tree sites.now ≡ view.unit numbers.now.tree.now }
    requires known { knows numbers.now.classes ≡ known_of (view.unit numbers.now.tree.now) }
    ensures { IfOk result (λ all. map class_form all ≡ map (numbered_class (view.unit numbers.now.tree.now)) (texts names.now)) }
{
    let mut all = Items::new(alloc);
    for name in names {
        all.push(class(alloc, numbers, sites, name)?)?;
    }
    Ok(all)
}
