// Programs with a chain of classes, no member and one selector, `toString`.
ghost use Rattle.std.specs.Prelude.{◌≡◌, ◌≤◌, IfOk};
ghost use Rattle.mega_tests.specs.Chains.{plain_class, chain_of};

use ds_base::NoMemory;
use method_lookup::Linked;
use small_program::{Small, SmallClass, number};
use sqlite_items::Items;
use std::alloc::{AllocError, Global};

fn plain_class(alloc: Global) -> Result<SmallClass, AllocError>
    ensures { IfOk result (λ k. k ≡ plain_class) }
{
    Ok(SmallClass {
        name: Items::new(alloc),
        methods: Items::new(alloc),
    })
}

#[tactic(auto, using(crate::proofs::ChainFacts::chain_next))]
fn chain_of(alloc: Global, count: u16) -> Result<Small, AllocError>
    ensures { IfOk result (λ s. s ≡ chain_of count) }
{
    let mut classes = Items::new(alloc);
    for n in 0..count {
        classes.push(plain_class(alloc)?)?;
    }
    Ok(Small {
        classes,
        prints: Items::new(alloc),
    })
}

/// A program with so many classes beside the built-in ones.
pub fn linked_of(alloc: Global, count: u16) -> Result<Linked, NoMemory>
    requires { count ≤ 2041 }
{
    let small = chain_of(alloc, count)?;
    let program = number(alloc, &small)?;
    Linked::build(alloc, program)
}
