// What one pass, and two of which one is split from the other, find in two generations.
ghost use Rattle.std.specs.Prelude.{◌≡◌, ◌<◌};

use crate::chains::linked_of;
use crate::inserting::{find, insert, insert_all, target_of};
use ds_base::{NoMemory, Steps};
use mega_cache::{Found, MegaTable};
use std::alloc::Global;
use std::marker::Brand;
use std::process::Abort;
use std::sync::ledger::{Blank, Ledger};
use std::test::Fail;

/// In the first generation, of 16 places, these 16 have each its own home.
const FIRST: [u16; 16] = [7, 8, 9, 10, 11, 12, 13, 14, 15, 16, 17, 18, 19, 20, 21, 22];

fn generations<L: Ledger>(rt: &impl Abort, alloc: Global, blank: Blank) -> Result<(), NoMemory>
    requires name { blank.name ≡ L.name }
    requires parts { blank.parts ≡ L.parts }
    requires some { 0 < blank.parts }
{
    let mut steps = Steps::<L>::begin(blank);
    let linked = linked_of(alloc, 20)?;
    let (table, mut pass) = MegaTable::build(alloc, &linked)?;
    assert!(rt; insert_all(&table, &mut pass, &linked, &FIRST, 0, &mut steps));
    assert_eq!(rt; insert(&table, &mut pass, &linked, 23, &mut steps), Some(1));
    let at = target_of(&linked, 23).map(|target| Found::At {
        target,
        generation: 1,
    });
    assert_eq!(rt; find(&table, &mut pass, &linked, 23, &mut steps), at);
    let absent = Some(Found::Absent { generation: 1 });
    assert_eq!(rt; find(&table, &mut pass, &linked, 7, &mut steps), absent);
    Ok(())
}

#[test]
fn a_full_window_opens_the_next_generation(rt: HostRuntime) -> Result<(), Fail> {
    generations::<Brand>(&rt, rt.alloc(), Blank::new(1))?;
    Ok(())
}

fn split_and_join<L: Ledger>(rt: &impl Abort, alloc: Global, blank: Blank) -> Result<(), NoMemory>
    requires name { blank.name ≡ L.name }
    requires parts { blank.parts ≡ L.parts }
    requires some { 0 < blank.parts }
{
    let mut steps = Steps::<L>::begin(blank);
    let linked = linked_of(alloc, 20)?;
    let (table, mut first) = MegaTable::build(alloc, &linked)?;
    assert!(rt; insert_all(&table, &mut first, &linked, &FIRST, 0, &mut steps));
    let mut second = first.split(&table);
    let at = |generation: u8| target_of(&linked, 7).map(|target| Found::At { target, generation });
    assert_eq!(rt; find(&table, &mut second, &linked, 7, &mut steps), at(0));
    assert_eq!(rt;
        insert(&table, &mut second, &linked, 23, &mut steps),
        Some(1)
    );
    let absent = Some(Found::Absent { generation: 1 });
    assert_eq!(rt; find(&table, &mut second, &linked, 7, &mut steps), absent);
    assert_eq!(rt;
        insert(&table, &mut second, &linked, 7, &mut steps),
        Some(1)
    );
    first.join(&table, second);
    assert_eq!(rt; find(&table, &mut first, &linked, 7, &mut steps), at(1));
    Ok(())
}

#[test]
fn a_pass_finds_what_one_that_joins_it_inserted(rt: HostRuntime) -> Result<(), Fail> {
    split_and_join::<Brand>(&rt, rt.alloc(), Blank::new(1))?;
    Ok(())
}
