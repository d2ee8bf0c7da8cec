// The calls on tables and passes.
ghost use Rattle.std.specs.Prelude.{◌≡◌, ◌+◌, ◌*◌, ◌≤◌, IfOk, replicate};
ghost use Rattle.mega_cache.specs.Told.{nothing, both};
ghost use Rattle.mega_cache.specs.Finds.{linked_of, target_in, last_in, IsPassOf, seen_by, HasSelector, HasClass, FindIs, HasTarget, FoundAgain, KeepsSeen, StandsAt};

use crate::entry::Entry;
use crate::find::search;
use crate::generations::{last_generation, words_up_to};
use crate::insert::add;
use crate::kinds::{JoinPasses, SplitPass};
use crate::table::{MegaPass, MegaTable};
use crate::view::Found;
use atomic_table::Table;
use ds_base::{NoMemory, Steps};
use method_lookup::Linked;
use program::{ClassId, SelectorId, Target};
use std::alloc::Global;
use std::marker::Brand;
use std::snapshot::Snapshot;
use std::sync::ledger::Ledger;

fn zeros(alloc: Global, count: usize) -> Result<Vec<u64>, NoMemory>
    ensures { IfOk result (λ words. words.items ≡ replicate count 0) }
{
    Ok(vec![in alloc; 0; count]?)
}

impl MegaTable {
    /// A table in which no class stands, with the first pass. All memory is taken here.
    pub fn build(alloc: Global, linked: &Linked) -> Result<(MegaTable, MegaPass), NoMemory>
        ensures program { IfOk result (λ r. linked_of r.0 ≡ linked.now) }
        ensures pass { IfOk result (λ r. IsPassOf r.0 r.1) }
        ensures nothing { IfOk result (λ r. seen_by r.1 ≡ nothing) }
    {
        let last = last_generation(linked.program().classes.len());
        let width = words_up_to(last);
        let words = zeros(alloc, 1 + linked.program().selectors.len() * width as usize)?;
        let about = Snapshot::of(linked);
        let (table, seat) = Table::of_words(alloc, words.as_slice(), &about)?;
        Ok((MegaTable { table, width, last }, MegaPass { seat }))
    }

    /// Looks for a class in the generation that the selector's root has.
    pub fn find<L: Ledger>(
        &self,
        pass: &mut MegaPass,
        sel: SelectorId,
        c: ClassId,
        steps: &mut Steps<L>,
    ) -> Found
        requires pass { IsPassOf self.now pass.old }
        requires selector { HasSelector self.now sel.0 }
        ensures pass { IsPassOf self.now pass.new }
        ensures found { FindIs sel.0 c.0 result (seen_by pass.old) (seen_by pass.new) }
        ensures target { HasTarget (target_in self.now c.0 sel.0) result }
        ensures again { FoundAgain sel.0 c.0 result (seen_by pass.old) }
        ensures later { KeepsSeen (seen_by pass.old) (seen_by pass.new) }
        ensures cost { steps.new ≤ steps.old + 9 }
    {
        search::<Brand, L>(self, &mut pass.seat, sel, c.0, steps)
    }

    /// Adds a class with its target, and gives the generation where it stands now.
    pub fn insert<L: Ledger>(
        &self,
        pass: &mut MegaPass,
        sel: SelectorId,
        c: ClassId,
        t: Target,
        steps: &mut Steps<L>,
    ) -> u8
        requires pass { IsPassOf self.now pass.old }
        requires selector { HasSelector self.now sel.0 }
        requires class { HasClass self.now c.0 }
        requires target { t ≡ target_in self.now c.0 sel.0 }
        ensures pass { IsPassOf self.now pass.new }
        ensures stands { StandsAt sel.0 c.0 result (seen_by pass.new) }
        ensures within { result ≤ last_in self.now }
        ensures later { KeepsSeen (seen_by pass.old) (seen_by pass.new) }
        ensures cost { steps.new ≤ steps.old + (17 * result + 17) }
    {
        let entry = Entry {
            class: c,
            target: t,
        };
        add::<Brand, L>(self, &mut pass.seat, sel, entry, steps)
    }
}

impl MegaPass {
    /// Cuts a pass in two, for two threads. Both have seen the same.
    pub fn split(&mut self, table: &MegaTable) -> MegaPass
        requires pass { IsPassOf table.now self.old }
        ensures pass { IsPassOf table.now self.new × IsPassOf table.now result }
        ensures seen { (seen_by self.new ≡ seen_by self.old) × (seen_by result ≡ seen_by self.old) }
    {
        let seat = table.table.shared.split_seat::<SplitPass>(&mut self.seat);
        MegaPass { seat }
    }

    /// Makes one pass of two. It has seen what either had.
    pub fn join(&mut self, table: &MegaTable, other: MegaPass)
        requires pass { IsPassOf table.now self.old }
        requires other { IsPassOf table.now other }
        ensures pass { IsPassOf table.now self.new }
        ensures seen { seen_by self.new ≡ both (seen_by self.old) (seen_by other) }
    {
        let MegaPass { seat } = other;
        table
            .table
            .shared
            .join_seat::<JoinPasses>(&mut self.seat, seat);
    }
}
