//! Threads that draw from one table.
ghost use Rattle.std.specs.Prelude.{◌-◌, ◌/◌, ◌<◌, ◌≤◌, IfOk};
ghost use Rattle.std.specs.Thread.{IsSync};
ghost use Rattle.job_deal.specs.Passes.{IsPassOf, share_of};

use crate::{JobPass, JobTable, collect};
use std::alloc::{AllocError, Global};
use std::test::Fail;
use std::thread;
use std::thread::Threads;

const JOBS: u32 = 64;

const THREADS: u32 = 16;

const ROUNDS: u32 = 1000;

/// Draws until no job is left, at most once more than there are jobs, and returns the jobs drawn.
fn draw_all(
    alloc: Global,
    table: &JobTable,
    mut pass: JobPass,
) -> Result<(JobPass, Vec<u32>), AllocError>
    requires { IsPassOf table.now pass }
    ensures { IfOk result (λ r. IsPassOf table.now r.0) }
{
    let mut jobs = Vec::new(alloc);
    for _ in 0..=JOBS {
        match table.deal(&mut pass) {
            Some(job) => jobs.push(job)?,
            None => break,
        }
    }
    Ok((pass, jobs))
}

/// Has so many threads draw at a time, and returns the jobs of all.
fn draw_beside<R: Threads + Sync>(
    rt: &R,
    alloc: Global,
    table: &JobTable,
    mut pass: JobPass,
    threads: u32,
) -> Result<(JobPass, Vec<u32>), AllocError>
    requires own { IsPassOf table.now pass }
    requires share { threads ≤ share_of pass }
    ensures { IfOk result (λ r. IsPassOf table.now r.0) }
{
    if threads <= 1 {
        return draw_all(alloc, table, pass);
    }
    let other = pass.split(table);
    let (mine, theirs) = thread::join(
        rt,
        || -> Result<(JobPass, Vec<u32>), AllocError>
            requires sync { IsSync R.row × (1 < threads) }
            requires pass { IsPassOf table.now pass × (threads - threads / 2 ≤ share_of pass) }
            ensures { IfOk result (λ r. IsPassOf table.entry.now r.0) }
        { draw_beside(rt, alloc, table, pass, threads - threads / 2) },
        || -> Result<(JobPass, Vec<u32>), AllocError>
            requires sync { IsSync R.row × (1 < threads) }
            requires pass { IsPassOf table.now other × (threads / 2 ≤ share_of other) }
            ensures { IfOk result (λ r. IsPassOf table.entry.now r.0) }
        { draw_beside(rt, alloc, table, other, threads / 2) },
    );
    let (mut pass, mut jobs) = mine?;
    let (other, more) = theirs?;
    pass.join(table, other);
    for job in more {
        jobs.push(job)?;
    }
    Ok((pass, jobs))
}

#[test]
fn deals_each_job_once_to_sixteen_threads(rt: HostRuntime) -> Result<(), Fail> {
    for _ in 0..ROUNDS {
        let (table, pass) = JobTable::build(rt.alloc(), JOBS)?;
        let (_pass, mut jobs) = draw_beside(&rt, rt.alloc(), &table, pass, THREADS)?;
        jobs.sort_unstable();
        assert_eq!(rt; jobs.len(), JOBS as usize);
        for (place, job) in jobs.iter().enumerate() {
            assert_eq!(rt; *job as usize, place);
        }
    }
    Ok(())
}

#[test]
fn puts_results_in_the_order_of_their_jobs(rt: HostRuntime) -> Result<(), Fail> {
    let early = vec![in rt.alloc(); (1, 'b'), (3, 'd')]?;
    let late = vec![in rt.alloc(); (2, 'c'), (0, 'a')]?;
    let parts = vec![in rt.alloc(); early, late]?;
    let results = collect(rt.alloc(), 4, parts)?;
    assert!(rt; results.as_slice() == ['a', 'b', 'c', 'd'].as_slice());
    Ok(())
}
