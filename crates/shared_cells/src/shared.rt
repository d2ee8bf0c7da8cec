// Shared cells, behind the trait of all cells.
ghost use Rattle.std.specs.Prelude.{◌≡◌, ◌↔◌, ◌<◌, ◌≤◌, ◌+◌, ◌*◌, [], ◌∷◌, ℕ, List, length, IsTrue, refl};
ghost use Rattle.program.specs.Parts.{is_concrete};
ghost use Rattle.program.specs.Program.{parts_of};
ghost use Rattle.program.specs.Lookup.{resolve};
ghost use Rattle.miss_handler.specs.Sites.{selector_of};
ghost use Rattle.cell_rule.specs.About.{about_of};
ghost use Rattle.cell_rule.specs.Stamps.{data_stamp, head_stamp};
ghost use Rattle.shared_cells.specs.Dispatches.{HowIs};
ghost use Rattle.shared_cells.specs.Runs.{last_stamp};
ghost use Rattle.shared_cells.specs.Shared.{AfterCalls, after_calls_none, after_calls_both};
ghost use Rattle.shared_cells.specs.Tables.{IsOf, key_of, view_of};

use crate::between::Held;
use crate::lent::SharedCells;
use crate::table::{CellTable, Pass};
use call_cell::{Cells, Dispatched};
use ds_base::{Gate, Steps};
use method_lookup::Linked;
use program::{ClassId, SiteId};
use std::sync::ledger::Ledger;

impl<'a, G: Gate> SharedCells<'a, G> {
    pub fn over(table: &'a CellTable, pass: Pass, gate: &'a G, entry: u32) -> SharedCells<'a, G>
        requires { IsOf table.now pass }
        ensures table { result.table.now ≡ table.now }
        ensures pass { result.pass ≡ pass }
    {
        SharedCells {
            table,
            pass,
            gate,
            entry,
        }
    }

    /// Gives the pass back.
    pub fn into_pass(self) -> Pass
        ensures own { IsOf self.entry.table.now result }
        ensures pass { result ≡ self.entry.pass }
    {
        let SharedCells {
            table: _,
            pass,
            gate: _,
            entry: _,
        } = self;
        pass
    }
}

impl<'a, G: Gate> Cells for SharedCells<'a, G> {
    ghost answers = { λ _ linked c sel. resolve (parts_of linked.program) c sel };

    ghost fits = { λ cells linked. about_of linked ≡ about_of (key_of cells.table.now) };

    ghost seen = { λ cells s. data_stamp s (view_of cells.pass).seen };

    ghost After = { λ old calls new. AfterCalls old.table.now (view_of old.pass) calls new.table.now (view_of new.pass) };

    ghost after_none = { λ cells. after_calls_none cells.table.now (view_of cells.pass) };

    ghost after_both = { λ a b c first second p q. after_calls_both a.table.now b.table.now c.table.now (view_of a.pass) (view_of b.pass) (view_of c.pass) first second p q };

    fn dispatch<L: Ledger>(
        &mut self,
        linked: &Linked,
        site: SiteId,
        c: ClassId,
        steps: &mut Steps<L>,
    ) -> Dispatched
        requires made { about_of linked.now ≡ about_of (key_of self.old.table.now) }
        requires site { site.0 < length linked.now.program.sites }
        requires concrete { IsTrue (is_concrete linked.now.program.classes c.0) }
        ensures target { result.target ≡ resolve (parts_of linked.now.program) c.0 (selector_of linked.now.program.sites site.0) }
        ensures made { about_of linked.now ≡ about_of (key_of self.new.table.now) }
        ensures seen { (s : ℕ) → data_stamp s (view_of self.old.pass).seen ≤ data_stamp s (view_of self.new.pass).seen }
        ensures stamp { result.stamp ≤ data_stamp site.0 (view_of self.new.pass).seen }
        ensures last { last_stamp (view_of self.new.pass).trace ≡ result.stamp }
        ensures after { AfterCalls self.old.table.now (view_of self.old.pass) ((site.0, c.0) ∷ []) self.new.table.now (view_of self.new.pass) }
        ensures how { HowIs result.how site.0 c.0 (view_of self.new.pass).trace }
        ensures cost { steps.new ≤ steps.old + 64 * (length linked.now.program.classes + 3) }
    {
        let held = Held {
            gate: self.gate,
            entry: self.entry,
        };
        let answer = self
            .pass
            .dispatch(self.table, linked, site, c, &held, steps);
        let Held { gate: _, entry: _ } = held;
        Dispatched {
            target: answer.target,
            how: answer.how,
            stamp: answer.stamp,
        }
    }
}
