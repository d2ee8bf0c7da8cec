// Programs with a chain of classes and one call of a member that nearly all of them declare.
ghost use Rattle.std.specs.Prelude.{◌≡◌, ◌≤◌, IfOk, codes};
ghost use Rattle.cell_tests.specs.Ladders.{with_member, bare, ladder_of};

use ds_base::NoMemory;
use method_lookup::Linked;
use small_program::{Small, SmallClass, SmallMethod, SmallPrint, number};
use sqlite_items::Items;
use std::alloc::{AllocError, Global};

fn with_member(alloc: Global) -> Result<SmallClass, AllocError>
    ensures { IfOk result (λ k. k ≡ with_member) }
{
    let mut methods = Items::new(alloc);
    methods.push(SmallMethod {
        name: Items::from_slice(alloc, b"m")?,
        value: 1,
    })?;
    Ok(SmallClass {
        name: Items::new(alloc),
        methods,
    })
}

fn bare(alloc: Global) -> SmallClass
    ensures { result ≡ bare }
{
    SmallClass {
        name: Items::new(alloc),
        methods: Items::new(alloc),
    }
}

fn one_print(alloc: Global) -> Result<SmallPrint, AllocError>
    ensures { IfOk result (λ p. p ≡ record { class = 0; method = codes "m"; line = 1; column = 1 }) }
{
    Ok(SmallPrint {
        class: 0,
        method: Items::from_slice(alloc, b"m")?,
        line: 1,
        column: 1,
    })
}

#[tactic(auto, using(crate::proofs::LadderFacts::ladder_next))]
fn ladder_of(alloc: Global, count: u16) -> Result<Small, AllocError>
    ensures { IfOk result (λ s. s ≡ ladder_of count) }
{
    let mut classes = Items::new(alloc);
    classes.push(with_member(alloc)?)?;
    classes.push(bare(alloc))?;
    for n in 0..count {
        classes.push(with_member(alloc)?)?;
    }
    let mut prints = Items::new(alloc);
    prints.push(one_print(alloc)?)?;
    Ok(Small { classes, prints })
}

/// A program whose site 0 calls `m`. Class 7 declares it, class 8 inherits it from 7, and so many more classes from 9 on declare it again.
pub fn linked_of(alloc: Global, count: u16) -> Result<Linked, NoMemory>
    requires { count ≤ 2039 }
{
    let small = ladder_of(alloc, count)?;
    let program = number(alloc, &small)?;
    Linked::build(alloc, program)
}
