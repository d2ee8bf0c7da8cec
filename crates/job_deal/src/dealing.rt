//! The calls of the counter and of its passes.
ghost use Rattle.std.specs.Prelude.{◌≡◌, ◌+◌, ◌-◌, ◌/◌, ◌≤◌, [], ◌++◌, IfOk};
ghost use Rattle.job_deal.specs.Dealt.{whole_share};
ghost use Rattle.job_deal.specs.Passes.{Draws, IsPassOf, TellsAll, drawn_of, share_of};

use crate::hand::{Both, Draw, Half, Look};
use crate::passes::{JobPass, JobTable};
use atomic_table::Table;
use ds_base::NoMemory;
use std::alloc::Global;

impl JobTable {
    /// A table from which no number was drawn, and the first pass, which has the whole share.
    /// There are at most 64 jobs. The only error is want of memory.
    pub fn build(alloc: Global, jobs: u32) -> Result<(JobTable, JobPass), NoMemory>
        requires { jobs ≤ 64 }
        ensures table { IfOk result (λ r. (r.0.jobs ≡ jobs) × IsPassOf r.0 r.1) }
        ensures pass { IfOk result (λ r. (share_of r.1 ≡ whole_share) × (drawn_of r.1 ≡ [])) }
    {
        let (table, seat) = Table::of_words(alloc, &[0], &())?;
        Ok((JobTable { table, jobs }, JobPass { seat }))
    }

    /// Draws the next number in one step, and returns it if it is a job's.
    pub fn deal(&self, pass: &mut JobPass) -> Option<u32>
        requires { IsPassOf self.now pass.old }
        ensures same { IsPassOf self.now pass.new × (share_of pass.new ≡ share_of pass.old) }
        ensures drew { Draws self.now.jobs pass.old pass.new result }
        ensures whole { TellsAll self.now.jobs pass.new }
    {
        let drawn = self.table.shared.fetch_add::<Draw>(&mut pass.seat, 0, 1);
        if drawn < self.jobs as u64 {
            Some(drawn as u32)
        } else {
            None
        }
    }
}

impl JobPass {
    /// A pass for another thread, which has drawn nothing and takes half of the share, rounded down.
    pub fn split(&mut self, table: &JobTable) -> JobPass
        requires own { IsPassOf table.now self.old }
        requires share { 2 ≤ share_of self.old }
        ensures own { IsPassOf table.now self.new × (drawn_of self.new ≡ drawn_of self.old) }
        ensures other { IsPassOf table.now result × (drawn_of result ≡ []) }
        ensures share { share_of self.new ≡ share_of self.old - share_of self.old / 2 }
        ensures half { share_of result ≡ share_of self.old / 2 }
    {
        let seat = table.table.shared.split_seat::<Half>(&mut self.seat);
        JobPass { seat }
    }

    /// Takes in the numbers and the share of another pass of the table.
    pub fn join(&mut self, table: &JobTable, other: JobPass)
        requires own { IsPassOf table.now self.old }
        requires other { IsPassOf table.now other }
        ensures same { IsPassOf table.now self.new }
        ensures share { share_of self.new ≡ share_of self.old + share_of other }
        ensures drawn { drawn_of self.new ≡ drawn_of self.old ++ drawn_of other }
        ensures whole { TellsAll table.now.jobs self.new }
    {
        let JobPass { seat } = other;
        table.table.shared.join_seat::<Both>(&mut self.seat, seat);
        // `join_seat` tells nothing of the rule, and a load does: so the pass learns here that it has all draws.
        table.table.shared.load::<Look>(&mut self.seat, 0);
    }
}
