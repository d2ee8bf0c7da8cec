//! A walk from Object down, which looks at each class once, and at each of its members a few times.

ghost use Rattle.std.specs.Prelude.{◌≡◌, ◌+◌, ◌<◌, Some, IfOk, OnOk};
ghost use Rattle.std.specs.List.{slice_get};
ghost use Rattle.dart_syntax.specs.View.{class};
ghost use Rattle.dart_meaning.specs.Classes.{object, parent_of};
ghost use Rattle.declaration_rules.specs.Seen.{class_of};
ghost use Rattle.class_chains.specs.Overriding.{find_in, built_in_by};
ghost use Rattle.class_chains.specs.Descending.{counted, IsNearest, AreSteps, IsDescent, IsPlace, HoldAll, place_of};

use crate::chains::{Chains, class_place};
use crate::nearest::{Before, Nearest, built_in_counts, put_back, put_own};
use crate::order::order_of;
use dart_syntax::token::Span;
use dart_syntax::tree::ClassDecl;
use program::Numbered;
use std::alloc::{AllocError, Global};
use std::collections::HashMap;

const OBJECT: &[u8] = b"Object";

/// A class that the walk went down to, and what the names of its methods counted above it.
#[derive(Drop)]
pub struct Step<'a> {
    pub class: &'a ClassDecl,
    pub was: Vec<Before<'a>>,
}

/// The walk: what counts from its class up, the classes on its way, and the places that it found, by the numbers of classes.
#[derive(Drop)]
pub struct Descent<'a> {
    pub nearest: Nearest<'a>,
    pub way: Vec<Step<'a>>,
    pub places: Vec<Option<Option<Span>>>,
}

/// What was found in a class, if the walk came to it.
pub fn place_at(places: &[Option<Option<Span>>], number: usize) -> Option<Option<Span>>
    ensures { result ≡ place_of places.now number }
{
    places.get(number).copied().unwrap_or(None)
}

fn note_place(places: &mut Vec<Option<Option<Span>>>, number: usize, place: Option<Span>)
    ensures { (k : _) → IsPlace k number place → HoldAll (IsPlace k) places.old.items → HoldAll (IsPlace k) places.new.items }
{
    if number < places.len() {
        places[number] = Some(place);
    }
}

fn no_places(alloc: Global, count: usize) -> Result<Vec<Option<Option<Span>>>, AllocError>
    ensures { IfOk result (λ places. (k : _) → HoldAll (IsPlace k) places.items) }
{
    let mut places = Vec::new(alloc);
    for _ in 0..count {
        places.push(None)?;
    }
    Ok(places)
}

/// Goes up by one class, and puts back what counted there. It is false where there is none.
fn leave<'a>(
    chains: &Chains<'a>,
    nearest: &mut Nearest<'a>,
    way: &mut Vec<Step<'a>>,
) -> Result<bool, AllocError>
    requires nearest { IsNearest chains.now nearest.old }
    requires way { AreSteps chains.now way.old.items }
    ensures nearest { OnOk result (IsNearest chains.now nearest.new) }
    ensures way { OnOk result (AreSteps chains.now way.new.items) }
{
    let Some(last) = way.pop() else {
        return Ok(false);
    };
    let name = last.class.name.text.as_slice();
    let Some(parent) = chains.parent(name) else {
        return Ok(false);
    };
    if name != nearest.class {
        return Ok(false);
    }
    put_back(&mut nearest.counts, &last.was)?;
    nearest.class = parent;
    nearest.height = nearest.height.saturating_sub(1);
    Ok(true)
}

/// Goes up to a class, if it is on the way.
fn climb<'a>(
    chains: &Chains<'a>,
    nearest: &mut Nearest<'a>,
    way: &mut Vec<Step<'a>>,
    class: &[u8],
) -> Result<(), AllocError>
    requires nearest { IsNearest chains.now nearest.old }
    requires way { AreSteps chains.now way.old.items }
    ensures nearest { OnOk result (IsNearest chains.now nearest.new) }
    ensures way { OnOk result (AreSteps chains.now way.new.items) }
{
    for _ in 0..nearest.height {
        if nearest.class == class || !leave(chains, nearest, way)? {
            return Ok(());
        }
    }
    Ok(())
}

/// Goes down to a class directly below.
fn go_down<'a>(
    alloc: Global,
    chains: &Chains<'a>,
    nearest: &mut Nearest<'a>,
    way: &mut Vec<Step<'a>>,
    c: &'a ClassDecl,
) -> Result<(), AllocError>
    requires nearest { IsNearest chains.now nearest.old }
    requires way { AreSteps chains.now way.old.items }
    requires below { parent_of (find_in chains.now c.now.name.text) c.now.name.text ≡ Some nearest.old.class.now }
    requires named { find_in chains.now c.now.name.text ≡ Some (class_of c) }
    requires less { nearest.old.height + 1 < chains.now.most }
    ensures nearest { OnOk result (IsNearest chains.now nearest.new) }
    ensures way { OnOk result (AreSteps chains.now way.new.items) }
{
    let members = c.members.as_slice();
    let was = nearest.saved(alloc, members)?;
    put_own(&mut nearest.counts, members)?;
    nearest.class = c.name.text.as_slice();
    nearest.height += 1;
    way.push(Step { class: c, was })?;
    Ok(())
}

/// Goes down to a class directly below, if it is the one that its name means.
fn enter<'a>(
    alloc: Global,
    chains: &Chains<'a>,
    nearest: &mut Nearest<'a>,
    way: &mut Vec<Step<'a>>,
    number: usize,
    c: &'a ClassDecl,
) -> Result<(), AllocError>
    requires nearest { IsNearest chains.now nearest.old }
    requires way { AreSteps chains.now way.old.items }
    requires below { parent_of (find_in chains.now c.now.name.text) c.now.name.text ≡ Some nearest.old.class.now }
    requires at { slice_get chains.now.all.items number ≡ Some c }
    ensures nearest { OnOk result (IsNearest chains.now nearest.new) }
    ensures way { OnOk result (AreSteps chains.now way.new.items) }
{
    let is_first = chains.is_first(number, c.name.text.as_slice());
    if is_first && nearest.height < chains.most().saturating_sub(1) {
        go_down(alloc, chains, nearest, way, c)?;
    }
    Ok(())
}

impl<'a> Descent<'a> {
    /// Looks at a class, where the walk is at the class above it or can go up to that.
    fn visit(&mut self, alloc: Global, chains: &Chains<'a>, number: usize) -> Result<(), AllocError>
        requires { IsDescent chains.now self.old }
        ensures { OnOk result (IsDescent chains.now self.new) }
    {
        let Some(c) = chains.class_at(number) else {
            return Ok(());
        };
        let Some(parent) = chains.parent(c.name.text.as_slice()) else {
            return Ok(());
        };
        climb(chains, &mut self.nearest, &mut self.way, parent)?;
        if self.nearest.class != parent {
            return Ok(());
        }
        let place = self.nearest.overrides_in(c);
        note_place(&mut self.places, number, place);
        enter(alloc, chains, &mut self.nearest, &mut self.way, number, c)?;
        Ok(())
    }
}

/// What counts at Object.
fn object_counts<'a>(
    alloc: Global,
    built_in: &'a Numbered,
) -> Result<HashMap<&'a [u8], usize>, AllocError>
    ensures { IfOk result (λ counts. (q : _) → counted counts q ≡ built_in_by built_in.now.classes built_in.now.methods object q) }
{
    match class_place(built_in.classes.as_slice(), OBJECT) {
        Some(number) => built_in_counts(alloc, built_in.methods.as_slice(), number),
        None => Ok(HashMap::new(alloc)),
    }
}

/// Where the walk begins: at Object, unless the text declares a class of that name.
fn at_object<'a>(alloc: Global, chains: &Chains<'a>) -> Result<Option<Nearest<'a>>, AllocError>
    ensures { IfOk result (λ o. (n : _) → o ≡ Some n → IsNearest chains.now n) }
{
    if chains.class_named(OBJECT).is_some() || chains.most() < 2 {
        return Ok(None);
    }
    let counts = object_counts(alloc, chains.built_in())?;
    Ok(Some(Nearest {
        counts,
        class: OBJECT,
        height: 1,
    }))
}

/// What the walk finds in each class that it comes to: all that are below Object, where no class is above itself.
pub(crate) fn places_of(
    alloc: Global,
    chains: &Chains<'_>,
) -> Result<Vec<Option<Option<Span>>>, AllocError>
    ensures { IfOk result (λ places. HoldAll (IsPlace chains.now) places.items) }
{
    let places = no_places(alloc, chains.all().len())?;
    let Some(nearest) = at_object(alloc, chains)? else {
        return Ok(places);
    };
    let mut descent = Descent {
        nearest,
        way: Vec::new(alloc),
        places,
    };
    let order = order_of(alloc, chains)?;
    for number in order.as_slice() {
        descent.visit(alloc, chains, *number)?;
    }
    Ok(descent.places)
}
