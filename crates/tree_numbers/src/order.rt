//! The order of the classes: each before those below it.

ghost use Rattle.std.specs.Prelude.{◌≡◌, ◌≤◌, ◌+◌, ◌*◌, ◌++◌, suc, length, OnOk, IfOk, map, flat_map, option_map, unwrap_or};
ghost use Rattle.dart_syntax.specs.View.{class};
ghost use Rattle.dart_meaning.specs.Classes.{object, parent_of, built_in_names};
ghost use Rattle.dart_syntax.specs.Syntax.{Tree};
ghost use Rattle.tree_numbers.specs.Parts.{class_of, text_of, texts};
ghost use Rattle.tree_numbers.specs.ClassFacts.{facts_of, knows};
ghost use Rattle.tree_numbers.specs.Order.{above_or_object, above_of, above_in, names_in, below_in, no_children, with_child, also_below, ordered, waiting_names, todo};

use crate::class_facts::ClassFacts;
use dart_syntax::tree::ClassDecl;
use ds_base::NoMemory;
use std::alloc::Global;
use std::collections::HashMap;

pub const NO_NAME: &[u8] = b"";

pub const OBJECT: &[u8] = b"Object";

/// The superclass that a class names, or Object.
fn above_or_object(c: &ClassDecl) -> &[u8]
    ensures { result.now ≡ above_or_object (class c.now) }
{
    match &c.parent {
        Some(name) => name.text.as_slice(),
        None => OBJECT,
    }
}

/// What is kept of the class of a name, if there is one.
#[tactic(auto, unfolding(crate::specs::ClassFacts::knows, crate::specs::Maps::in_map))]
pub fn class_of<'s, 'a>(
    known: &'s HashMap<&'a [u8], ClassFacts<'a>>,
    name: &'s [u8],
) -> Option<&'s ClassFacts<'a>>
    ensures { option_map (λ n. facts_of n.now) result ≡ knows known.now name.now }
{
    known.get(&name)
}

fn above_of<'a>(facts: Option<&ClassFacts<'a>>, name: &[u8]) -> Option<&'a [u8]>
    ensures { option_map text_of result ≡ above_of (option_map (λ n. facts_of n.now) facts.entry) name.now }
{
    match facts {
        Some(facts) => Some(above_or_object(facts.decl)),
        None => { if name == OBJECT { None } else { Some(OBJECT) } }
    }
}

/// The class above another one, by their names.
pub fn above<'a>(known: &HashMap<&'a [u8], ClassFacts<'a>>, name: &[u8]) -> Option<&'a [u8]>
    ensures { option_map text_of result ≡ above_in (knows known.now) name.now }
{
    above_of(class_of(known, name), name)
}

fn no_children<'a>(alloc: Global) -> HashMap<&'a [u8], Vec<&'a [u8]>>
    ensures { below_in result ≡ no_children }
{
    HashMap::new(alloc)
}

fn names_or_none<'a>(alloc: Global, names: Option<Vec<&'a [u8]>>) -> Vec<&'a [u8]>
    ensures { texts result.items ≡ names_in names.entry }
{
    match names {
        Some(names) => names,
        None => Vec::new(alloc),
    }
}

/// Takes a name to those below another one.
fn add_below<'a>(
    alloc: Global,
    below: &mut HashMap<&'a [u8], Vec<&'a [u8]>>,
    above: &'a [u8],
    name: &'a [u8],
) -> Result<(), NoMemory>
    ensures { OnOk result (below_in below.new ≡ with_child above.now name.now (below_in below.old)) }
{
    let mut names = names_or_none(alloc, below.remove(&above));
    names.push(name)?;
    below.insert(above, names)?;
    Ok(())
}

/// The names of the classes directly below each, in the order of the text.
fn names_below<'a>(
    alloc: Global,
    known: &HashMap<&'a [u8], ClassFacts<'a>>,
    classes: &[&'a ClassDecl],
) -> Result<HashMap<&'a [u8], Vec<&'a [u8]>>, NoMemory>
    ensures { IfOk result (λ below. below_in below ≡ also_below (above_in (knows known.now)) (map class_of classes.now) no_children) }
{
    let mut below = no_children(alloc);
    for c in classes {
        let name = c.name.text.as_slice();
        let above = above(known, name).unwrap_or(NO_NAME);
        add_below(alloc, &mut below, above, name)?;
    }
    Ok(below)
}

/// The names below one, if there are any.
#[tactic(auto, unfolding(crate::specs::Order::below_in, crate::specs::Maps::in_map))]
fn children<'s, 'a>(
    below: &'s HashMap<&'a [u8], Vec<&'a [u8]>>,
    name: &'s [u8],
) -> Option<&'s Vec<&'a [u8]>>
    ensures { names_in (option_map (λ v. v.now) result) ≡ below_in below.now name.now }
{
    below.get(&name)
}

/// Classes that are still to come, each with those below it, so many levels deep and one more.
#[derive(Clone, Copy)]
struct Waiting<'s, 'a> {
    levels: usize,
    names: &'s [&'a [u8]],
}

/// Lets the classes below one wait, if there are any more levels.
fn place_below<'s, 'a>(
    waiting: &mut Vec<Waiting<'s, 'a>>,
    levels: usize,
    names: Option<&'s Vec<&'a [u8]>>,
) -> Result<(), NoMemory>
    ensures below { OnOk result ((below : _) → todo below waiting.new.items ≡ flat_map (ordered levels below) (names_in (option_map (λ v. v.now) names.entry)) ++ todo below waiting.old.items) }
    ensures most { OnOk result (length waiting.new.items ≤ 1 + length waiting.old.items) }
{
    if let Some(names) = names {
        if levels > 0 {
            waiting.push(Waiting {
                levels: levels - 1,
                names: names.as_slice(),
            })?;
        }
    }
    Ok(())
}

/// Takes the first class that waits to the order.
fn place_first<'s, 'a>(
    below: &'s HashMap<&'a [u8], Vec<&'a [u8]>>,
    waiting: &mut Vec<Waiting<'s, 'a>>,
    first: Waiting<'s, 'a>,
    order: &mut Vec<&'a [u8]>,
) -> Result<(), NoMemory>
    ensures same { OnOk result (texts order.new.items ++ todo (below_in below.now) waiting.new.items ≡ texts order.old.items ++ (waiting_names (below_in below.now) first.entry ++ todo (below_in below.now) waiting.old.items)) }
    ensures most { OnOk result (length waiting.new.items + 2 * length order.old.items ≤ length waiting.old.items + 2 * length order.new.items) }
{
    if let Some((name, rest)) = first.names.split_first() {
        order.push(*name)?;
        waiting.push(Waiting {
            levels: first.levels,
            names: rest,
        })?;
        place_below(waiting, first.levels, children(below, *name))?;
    }
    Ok(())
}

/// Takes classes to the order, each with those below it.
fn place_all<'s, 'a>(
    alloc: Global,
    below: &'s HashMap<&'a [u8], Vec<&'a [u8]>>,
    levels: usize,
    names: &'s [&'a [u8]],
    order: &mut Vec<&'a [u8]>,
) -> Result<(), NoMemory>
    ensures { OnOk result (texts order.new.items ≡ texts order.old.items ++ flat_map (ordered (suc levels) (below_in below.now)) (texts names.now)) }
{
    let mut waiting = Vec::new(alloc);
    waiting.push(Waiting { levels, names })?;
    while let Some(first) = waiting.pop() {
        place_first(below, &mut waiting, first, order)?;
    }
    Ok(())
}

pub const BUILT_IN: [&[u8]; 7] = [
    b"Object",
    b"Null",
    b"bool",
    b"int",
    b"String",
    b"List",
    b"Invocation",
];

/// The names of the built-in classes.
fn built_in_order<'a>(alloc: Global) -> Result<Vec<&'a [u8]>, NoMemory>
    ensures { IfOk result (λ order. texts order.items ≡ built_in_names) }
{
    let mut order = Vec::new(alloc);
    for name in BUILT_IN.iter() {
        order.push(*name)?;
    }
    Ok(order)
}

/// The names of all classes: the built-in ones, and those of the text, each before the classes below it.
pub fn class_order<'a>(
    alloc: Global,
    known: &HashMap<&'a [u8], ClassFacts<'a>>,
    classes: &[&'a ClassDecl],
    levels: usize,
) -> Result<Vec<&'a [u8]>, NoMemory>
    ensures { IfOk result (λ order. texts order.items ≡ built_in_names ++ flat_map (ordered (suc levels) (also_below (above_in (knows known.now)) (map class_of classes.now) no_children)) (also_below (above_in (knows known.now)) (map class_of classes.now) no_children object)) }
{
    let below = names_below(alloc, known, classes)?;
    let mut order = built_in_order(alloc)?;
    if let Some(first) = children(&below, OBJECT) {
        place_all(alloc, &below, levels, first.as_slice(), &mut order)?;
    }
    Ok(order)
}
