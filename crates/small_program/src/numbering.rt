// The numbered program of a small program.
ghost use Rattle.std.specs.Prelude.{◌≡◌, IfOk};
ghost use Rattle.program.specs.Program.{parts_of};
ghost use Rattle.small_program.specs.Small.{IsSmall};
ghost use Rattle.small_program.specs.Numbering.{main_of, parts_of_small};

use crate::members::{add_classes, add_methods};
use crate::sites::{selectors, sites, statements};
use crate::small::Small;
use program::{Body, Function, Numbered, built_in_program};
use sqlite_items::Items;
use std::alloc::{AllocError, Global};

/// The function `main`.
fn main_with(alloc: Global, small: &Small) -> Result<Function, AllocError>
    requires { IsSmall small.now }
    ensures { IfOk result (λ f. f ≡ main_of small.now) }
{
    let name = Items::from_slice(alloc, b"main")?;
    let body = statements(alloc, small.prints.as_slice())?;
    Ok(Function {
        name,
        is_entry: false,
        required: 0,
        defaults: Items::new(alloc),
        body: Body::Block(body),
    })
}

/// The numbered program: the built-in classes and members, then the chain from class 7 on, its methods, and `main`.
pub fn number(alloc: Global, small: &Small) -> Result<Numbered, AllocError>
    requires { IsSmall small.now }
    ensures { IfOk result (λ p. parts_of p ≡ parts_of_small small.now) }
{
    let built_in = built_in_program(alloc)?;
    let mut classes = built_in.classes;
    let mut methods = built_in.methods;
    add_classes(alloc, &mut classes, small.classes.as_slice())?;
    add_methods(alloc, &mut methods, small.classes.as_slice())?;
    let mut functions = Items::new(alloc);
    functions.push(main_with(alloc, small)?)?;
    let selectors = selectors(alloc, small.prints.as_slice())?;
    let sites = sites(alloc, selectors.as_slice(), small.prints.as_slice())?;
    Ok(Numbered {
        classes,
        methods,
        functions,
        selectors,
        sites,
        globals: Items::new(alloc),
    })
}
