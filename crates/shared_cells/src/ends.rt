// A table's beginning and end, passes that are cut in two and put together, and calls.
ghost use Rattle.program.specs.Parts.{is_concrete};
ghost use Rattle.miss_handler.specs.Sites.{receivers_at};
ghost use Rattle.cell_rule.specs.About.{about_of};
ghost use Rattle.list_members.specs.Members.{Each};
ghost use Rattle.cell_rule.specs.Stamps.{data_stamp};
ghost use Rattle.cell_rule.specs.Steps.{Coherent, EndsAs};
ghost use Rattle.cell_rule.specs.Told.{newcomer, kept, given, joined};
ghost use Rattle.shared_cells.specs.Dispatches.{HowIs, StoodAs};
ghost use Rattle.shared_cells.specs.Runs.{After, Kept, IsMove, last_stamp};
ghost use Rattle.shared_cells.specs.Tables.{view_of, IsOf, key_of};
ghost use Rattle.std.specs.Mem.Slots.{slots_items, slots_len, IsFull};
ghost use Rattle.std.specs.Prelude.{◌≡◌, ◌+◌, ◌*◌, ◌<◌, ◌≤◌, IfOk, IsTrue, length};

use crate::answer::Answer;
use crate::between::Between;
use crate::dispatch::run;
use crate::table::{CellTable, Pass};
use atomic_table::Closed;
use cell_rule::CellWords;
use ds_base::{NoMemory, Steps};
use method_lookup::Linked;
use program::{ClassId, SiteId};
use std::alloc::Global;
use std::marker::Brand;
use std::sync::ledger::Ledger;

impl CellTable {
    /// A table in which each site is unlinked, and the first pass.
    pub fn build(alloc: Global, linked: &Linked) -> Result<(CellTable, Pass), NoMemory>
        ensures key { IfOk result (λ r. key_of r.0 ≡ linked.now) }
        ensures own { IfOk result (λ r. IsOf r.0 r.1) }
        ensures new { IfOk result (λ r. view_of r.1 ≡ newcomer) }
    {
        let (words, seat) = CellWords::build(alloc, linked)?;
        Ok((CellTable { words }, Pass { seat }))
    }

    /// The words at the end, for the pass with every share.
    pub fn close(self, pass: Pass) -> Closed<(), Global>
        requires own { IsOf self pass }
        requires whole { (view_of pass).share ≡ 65536 }
        ensures words { IsFull result.words × (slots_len result.slots ≡ 0) }
        ensures end { EndsAs (about_of (key_of self)) (view_of pass) (slots_items result.words) }
    {
        let CellTable { words } = self;
        let Pass { seat } = pass;
        words.close(seat)
    }
}

impl Pass {
    /// Cuts the pass in two: the new one has seen the same, and gets half of the share.
    pub fn split(&mut self, table: &CellTable) -> Pass
        requires own { IsOf table.now self.old }
        requires share { 2 ≤ (view_of self.old).share }
        ensures same { IsOf table.now self.new }
        ensures kept { view_of self.new ≡ kept (view_of self.old) }
        ensures own { IsOf table.now result }
        ensures new { view_of result ≡ given (view_of self.old) }
    {
        let seat = table.words.split(&mut self.seat);
        Pass { seat }
    }

    /// Puts another pass into this one.
    pub fn join(&mut self, table: &CellTable, other: Pass)
        requires own { IsOf table.now self.old }
        requires other { IsOf table.now other }
        ensures same { IsOf table.now self.new }
        ensures both { view_of self.new ≡ joined (view_of self.old) (view_of other) }
        ensures coherent { Coherent (view_of self.new).seen }
    {
        let Pass { seat } = other;
        table.words.join(&mut self.seat, seat);
    }

    /// Answers a call of the class at the site. What stands between is asked after each advance of a data word, before its target word is finished.
    pub fn dispatch<B: Between, L: Ledger>(
        &mut self,
        table: &CellTable,
        linked: &Linked,
        site: SiteId,
        class: ClassId,
        between: &B,
        steps: &mut Steps<L>,
    ) -> Answer
        requires own { IsOf table.now self.old }
        requires fits { about_of linked.now ≡ about_of (key_of table.now) }
        requires site { site.0 < length linked.now.program.sites }
        requires concrete { IsTrue (is_concrete linked.now.program.classes class.0) }
        ensures same { IsOf table.now self.new }
        ensures target { result.target ≡ (receivers_at linked.now site.0).resolve class.0 }
        ensures after { After site.0 class.0 (view_of self.old) (view_of self.new) }
        ensures how { HowIs result.how site.0 class.0 (view_of self.new).trace }
        ensures stamp { result.stamp ≤ data_stamp site.0 (view_of self.new).seen }
        ensures last { last_stamp (view_of self.new).trace ≡ result.stamp }
        ensures stood { StoodAs result.asks site.0 class.0 (view_of self.new) }
        ensures kept { Kept site.0 (view_of self.new).changes (view_of self.new) }
        ensures moves { Each (IsMove (about_of linked.now) site.0 class.0) (view_of self.new).changes }
        ensures steps { steps.new ≤ steps.old + (24 * length linked.now.program.classes + 61) }
        ensures bound { steps.new ≤ steps.old + 64 * (length linked.now.program.classes + 3) }
    {
        run::<Brand, B, L>(
            &table.words,
            &mut self.seat,
            linked,
            site,
            class,
            between,
            steps,
        )
    }
}
