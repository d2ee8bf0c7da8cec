// Calls on a table for the first selector of its program. None where the program has no such class.
ghost use Rattle.std.specs.Prelude.{◌≡◌};
ghost use Rattle.mega_cache.specs.Finds.{linked_of, IsPassOf};

use ds_base::Steps;
use mega_cache::{Found, MegaPass, MegaTable};
use method_lookup::Linked;
use program::{ClassId, SelectorId, Target};
use std::sync::ledger::Ledger;

pub fn target_of(linked: &Linked, class: u16) -> Option<Target> {
    if linked.program().selectors.is_empty() || class as usize >= linked.program().classes.len() {
        return None;
    }
    Some(linked.target_of(ClassId(class), SelectorId(0)))
}

pub fn insert<L: Ledger>(
    table: &MegaTable,
    pass: &mut MegaPass,
    linked: &Linked,
    class: u16,
    steps: &mut Steps<L>,
) -> Option<u8>
    requires program { linked_of table.now ≡ linked.now }
    requires pass { IsPassOf table.now pass.old }
    ensures pass { IsPassOf table.now pass.new }
{
    if linked.program().selectors.is_empty() || class as usize >= linked.program().classes.len() {
        return None;
    }
    let (sel, c) = (SelectorId(0), ClassId(class));
    let target = linked.target_of(c, sel);
    Some(table.insert(pass, sel, c, target, steps))
}

pub fn find<L: Ledger>(
    table: &MegaTable,
    pass: &mut MegaPass,
    linked: &Linked,
    class: u16,
    steps: &mut Steps<L>,
) -> Option<Found>
    requires program { linked_of table.now ≡ linked.now }
    requires pass { IsPassOf table.now pass.old }
    ensures pass { IsPassOf table.now pass.new }
{
    if linked.program().selectors.is_empty() {
        return None;
    }
    Some(table.find(pass, SelectorId(0), ClassId(class), steps))
}

/// Whether each of these classes is inserted in this generation.
pub fn insert_all<L: Ledger>(
    table: &MegaTable,
    pass: &mut MegaPass,
    linked: &Linked,
    classes: &[u16],
    generation: u8,
    steps: &mut Steps<L>,
) -> bool
    requires program { linked_of table.now ≡ linked.now }
    requires pass { IsPassOf table.now pass.old }
    ensures pass { IsPassOf table.now pass.new }
{
    let mut all = true;
    for class in classes {
        all = insert(table, pass, linked, *class, steps) == Some(generation) && all;
    }
    all
}
