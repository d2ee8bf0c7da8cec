//! The lists of the program of a tree.

ghost use Rattle.std.specs.Prelude.{◌≡◌, ◌++◌, IfOk, map, flat_map, take};
ghost use Rattle.dart_syntax.specs.View as view;
ghost use Rattle.program.specs.BuiltIn.{built_in_members};
ghost use Rattle.dart_meaning.specs.Classes as c;
ghost use Rattle.dart_meaning.specs.Entry.{globals_of};
ghost use Rattle.dart_meaning.specs.Numbered.{literal};
ghost use Rattle.dart_meaning.specs.Forms.{class_form, method_form, function_form};
ghost use Rattle.dart_meaning.specs.NumberedForm.{numbered_class, numbered_function};
ghost use Rattle.tree_numbers.specs.ClassFacts.{knows};
ghost use Rattle.tree_numbers.specs.Asked.{known_of};
ghost use Rattle.tree_lists.specs.Methods.{methods_of};

use crate::classes::classes_named;
use crate::fields::globals;
use crate::functions::functions;
use crate::inside::SiteNumbers;
use crate::methods::user_methods;
use ds_base::NoMemory;
use program::{Class, Function, Literal, Method};
use sqlite_items::Items;
use std::alloc::Global;
use tree_numbers::{TreeNumbers, classes_of};

/// The classes by their numbers.
pub fn all_classes<'a, S: SiteNumbers>(
    alloc: Global,
    numbers: &TreeNumbers<'a>,
    sites: &S,
) -> Result<Items<Class>, NoMemory>
    requires sites { S.tree sites.now ≡ view.unit numbers.now.tree.now }
    requires known { knows numbers.now.classes ≡ known_of (view.unit numbers.now.tree.now) }
    ensures { IfOk result (λ all. map class_form all ≡ map (numbered_class (view.unit numbers.now.tree.now)) (c.class_names (view.unit numbers.now.tree.now))) }
{
    let all = classes_named(alloc, numbers, sites, numbers.class_names())?;
    Ok(all)
}

fn text_methods<'a, S: SiteNumbers>(
    alloc: Global,
    numbers: &TreeNumbers<'a>,
    sites: &S,
) -> Result<Items<Method>, NoMemory>
    requires { S.tree sites.now ≡ view.unit numbers.now.tree.now }
    ensures { IfOk result (λ all. map method_form all ≡ flat_map (methods_of (view.unit numbers.now.tree.now)) (c.classes (view.unit numbers.now.tree.now))) }
{
    let classes = classes_of(alloc, numbers.tree.tops.as_slice())?;
    let all = user_methods(alloc, numbers, sites, &classes)?;
    Ok(all)
}

/// The methods by their numbers: the built-in ones, and then those of the text in its order.
pub fn all_methods<'a, S: SiteNumbers>(
    alloc: Global,
    built_in: Items<Method>,
    numbers: &TreeNumbers<'a>,
    sites: &S,
) -> Result<Items<Method>, NoMemory>
    requires built_in { built_in ≡ built_in_members }
    requires sites { S.tree sites.now ≡ view.unit numbers.now.tree.now }
    ensures front { IfOk result (λ all. take 49 all ≡ built_in_members) }
    ensures all { IfOk result (λ all. map method_form all ≡ map method_form built_in_members ++ flat_map (methods_of (view.unit numbers.now.tree.now)) (c.classes (view.unit numbers.now.tree.now))) }
{
    let mut all = built_in;
    all.append(text_methods(alloc, numbers, sites)?)?;
    Ok(all)
}

/// The functions by their numbers.
pub fn all_functions<'a, S: SiteNumbers>(
    alloc: Global,
    numbers: &TreeNumbers<'a>,
    sites: &S,
) -> Result<Items<Function>, NoMemory>
    requires sites { S.tree sites.now ≡ view.unit numbers.now.tree.now }
    ensures { IfOk result (λ all. map function_form all ≡ map (numbered_function (view.unit numbers.now.tree.now)) (c.functions (view.unit numbers.now.tree.now))) }
{
    functions(alloc, numbers, sites, numbers.tree.tops.as_slice())
}

/// What the variables of the unit begin with, by their numbers.
pub fn all_globals(alloc: Global, numbers: &TreeNumbers) -> Result<Items<Literal>, NoMemory>
    ensures { IfOk result (λ all. map literal all ≡ globals_of (view.unit numbers.now.tree.now)) }
{
    globals(alloc, numbers.tree.tops.as_slice())
}
