// Calls on plain cells.
ghost use Rattle.std.specs.Prelude.{◌≡◌, ◌↔◌, ◌<◌, ◌≤◌, ◌+◌, ◌*◌, [], ◌∷◌, ℕ, List, length, IfOk, IsTrue, MatchOption, replicate, None, true, false};
ghost use Rattle.program.specs.Parts.{is_concrete};
ghost use Rattle.program.specs.Program.{parts_of};
ghost use Rattle.program.specs.Lookup.{resolve};
ghost use Rattle.miss_handler.specs.States.{checks_of, covers, missed};
ghost use Rattle.miss_handler.specs.Sites.{receivers_at, selector_of};
ghost use Rattle.call_cell.specs.Kept.{AreUnlinked, site_cell, nothing_kept, is_covered, put, with_class, after_call, HasTarget};
ghost use Rattle.call_cell.specs.Plain.{linked_of, kept, After, after_none, after_both};

use crate::cell::{Cell, is_mega, missed, target_at, target_for, unlinked};
use crate::plain::PlainCells;
use crate::{Cells, Dispatched, How};
use ds_base::{NoMemory, Steps};
use method_lookup::Linked;
use miss_handler::{CallState, Row, SiteStates, selector_at};
use program::{ClassId, SiteId, Target};
use std::alloc::Global;
use std::snapshot::Snapshot;
use std::sync::ledger::Ledger;

/// Where the entry of a class stands in the table of a site's selector.
fn entry_place(linked: &Linked, site: SiteId, c: ClassId) -> usize
    requires site { site.0 < length linked.now.program.sites }
    requires class { c.0 < length linked.now.program.classes }
    ensures place { result ≡ selector_of linked.now.program.sites site.0 * length linked.now.program.classes + c.0 }
    ensures within { result < length linked.now.program.selectors * length linked.now.program.classes }
{
    let selector = selector_at(linked, site);
    selector.0 as usize * linked.program().classes.len() + c.0 as usize
}

/// So many cells that had no call.
fn unlinked_cells(alloc: Global, count: usize) -> Result<Vec<Cell>, NoMemory>
    ensures { IfOk result (λ cells. AreUnlinked count cells.items) }
{
    Ok(vec![in alloc; unlinked(); count]?)
}

/// So many entries of no class.
fn no_entries(alloc: Global, count: usize) -> Result<Vec<Option<Target>>, NoMemory>
    ensures { IfOk result (λ entries. entries.items ≡ replicate count None) }
{
    Ok(vec![in alloc; None; count]?)
}

impl PlainCells {
    /// Cells for each site of a program, all of them unlinked. All memory is taken here.
    pub fn build(alloc: Global, linked: &Linked) -> Result<PlainCells, NoMemory>
        ensures program { IfOk result (λ cells. linked_of cells ≡ linked.now) }
        ensures new { IfOk result (λ cells. kept cells ≡ nothing_kept) }
    {
        let program = linked.program();
        let entries = program.selectors.len() * program.classes.len();
        let cells = unlinked_cells(alloc, program.sites.len())?;
        let tables = no_entries(alloc, entries)?;
        Ok(PlainCells {
            cells,
            tables,
            linked: Snapshot::of(linked),
        })
    }

    /// The target that is kept for a call, if the site covers the class. It looks nothing up.
    #[inline(always)]
    fn hit(&self, linked: &Linked, site: SiteId, c: ClassId) -> Option<Target>
        requires made { linked_of self.now ≡ linked.now }
        requires site { site.0 < length linked.now.program.sites }
        requires concrete { IsTrue (is_concrete linked.now.program.classes c.0) }
        ensures { MatchOption result (is_covered (parts_of linked.now.program) (kept self.now) site.0 c.0 ≡ false)
            (λ t. (is_covered (parts_of linked.now.program) (kept self.now) site.0 c.0 ≡ true) × (t ≡ (receivers_at linked.now site.0).resolve c.0)) }
    {
        let cell = &self.cells[site.0 as usize];
        if is_mega(cell.state) {
            self.tables[entry_place(linked, site, c)]
        } else {
            target_for(cell, c)
        }
    }

    /// How many transitions the site made.
    #[inline(always)]
    fn stamp(&self, site: SiteId) -> u16
        requires { site.0 < length (linked_of self.now).program.sites }
        ensures { result ≡ ((kept self.now).site site.0).stamp }
    {
        self.cells[site.0 as usize].stamp
    }

    /// What a miss makes of the site.
    fn missed_cell(&self, linked: &Linked, site: SiteId, c: ClassId, target: Target) -> Cell
        requires made { linked_of self.now ≡ linked.now }
        requires site { site.0 < length linked.now.program.sites }
        requires concrete { IsTrue (is_concrete linked.now.program.classes c.0) }
        requires target { target ≡ (receivers_at linked.now site.0).resolve c.0 }
        requires uncovered { covers ((kept self.now).site site.0).state ((kept self.now).site site.0).row c.0 ≡ false }
        ensures cell { site_cell result ≡ missed (receivers_at linked.now site.0) ((kept self.now).site site.0) c.0 }
        ensures target { HasTarget (receivers_at linked.now site.0) result }
    {
        missed(linked, site, &self.cells[site.0 as usize], c, target)
    }

    /// Keeps what a miss made of the site.
    fn keep(&mut self, linked: &Linked, site: SiteId, c: ClassId, cell: Cell)
        requires made { linked_of self.old ≡ linked.now }
        requires site { site.0 < length linked.now.program.sites }
        requires concrete { IsTrue (is_concrete linked.now.program.classes c.0) }
        requires uncovered { covers ((kept self.old).site site.0).state ((kept self.old).site site.0).row c.0 ≡ false }
        requires cell { site_cell cell ≡ missed (receivers_at linked.now site.0) ((kept self.old).site site.0) c.0 }
        requires target { HasTarget (receivers_at linked.now site.0) cell }
        ensures made { linked_of self.new ≡ linked_of self.old }
        ensures kept { kept self.new ≡ record { site = put (kept self.old).site site.0 (site_cell cell); added = (kept self.old).added } }
    {
        self.cells[site.0 as usize] = cell;
    }

    /// Adds a class to the table of the site's selector.
    fn add(&mut self, linked: &Linked, site: SiteId, c: ClassId, target: Target)
        requires made { linked_of self.old ≡ linked.now }
        requires site { site.0 < length linked.now.program.sites }
        requires class { c.0 < length linked.now.program.classes }
        requires target { target ≡ (receivers_at linked.now site.0).resolve c.0 }
        ensures made { linked_of self.new ≡ linked_of self.old }
        ensures kept { kept self.new ≡ record { site = (kept self.old).site; added = with_class (kept self.old).added (selector_of linked.now.program.sites site.0) c.0 } }
    {
        let place = entry_place(linked, site, c);
        self.tables[place] = Some(target);
    }

    /// Answers a call on a class that is not covered, by lookup.
    #[inline(never)]
    fn miss(&mut self, linked: &Linked, site: SiteId, c: ClassId) -> Target
        requires made { linked_of self.old ≡ linked.now }
        requires site { site.0 < length linked.now.program.sites }
        requires concrete { IsTrue (is_concrete linked.now.program.classes c.0) }
        requires uncovered { is_covered (parts_of linked.now.program) (kept self.old) site.0 c.0 ≡ false }
        ensures made { linked_of self.new ≡ linked_of self.old }
        ensures target { result ≡ (receivers_at linked.now site.0).resolve c.0 }
        ensures kept { kept self.new ≡ after_call (parts_of linked.now.program) (kept self.old) (site.0, c.0) }
    {
        let target = target_at(linked, site, c);
        let cell = self.missed_cell(linked, site, c, target);
        self.keep(linked, site, c, cell);
        if is_mega(cell.state) {
            self.add(linked, site, c, target);
        }
        target
    }
}

impl SiteStates for PlainCells {
    ghost sites = { λ cells. length (linked_of cells).program.sites };

    ghost state_at = { λ cells s. ((kept cells).site s).state };

    ghost row_at = { λ cells s. ((kept cells).site s).row };

    fn state(&self, site: SiteId) -> CallState {
        self.cells[site.0 as usize].state
    }

    fn row(&self, site: SiteId) -> Row {
        self.cells[site.0 as usize].row
    }
}

impl Cells for PlainCells {
    ghost answers = { λ _ linked c sel. resolve (parts_of linked.program) c sel };

    ghost fits = { λ cells linked. linked_of cells ≡ linked };

    ghost seen = { λ cells s. ((kept cells).site s).stamp };

    ghost After = { After };

    ghost after_none = { after_none };

    ghost after_both = { after_both };

    #[inline(always)]
    fn dispatch<L: Ledger>(
        &mut self,
        linked: &Linked,
        site: SiteId,
        c: ClassId,
        steps: &mut Steps<L>,
    ) -> Dispatched
        requires made { linked_of self.old ≡ linked.now }
        requires site { site.0 < length linked.now.program.sites }
        requires concrete { IsTrue (is_concrete linked.now.program.classes c.0) }
        ensures target { result.target ≡ resolve (parts_of linked.now.program) c.0 (selector_of linked.now.program.sites site.0) }
        ensures made { linked_of self.new ≡ linked.now }
        ensures seen { (s : ℕ) → ((kept self.old).site s).stamp ≤ ((kept self.new).site s).stamp }
        ensures stamp { result.stamp ≡ ((kept self.new).site site.0).stamp }
        ensures after { After self.old ((site.0, c.0) ∷ []) self.new }
        ensures how { (result.how ≡ How.Hit) ↔ (is_covered (parts_of linked.now.program) (kept self.old) site.0 c.0 ≡ true) }
        ensures cost { steps.new ≡ steps.old }
    {
        match self.hit(linked, site, c) {
            Some(target) => Dispatched {
                target,
                how: How::Hit,
                stamp: self.stamp(site),
            },
            None => Dispatched {
                target: self.miss(linked, site, c),
                how: How::Miss,
                stamp: self.stamp(site),
            },
        }
    }
}
