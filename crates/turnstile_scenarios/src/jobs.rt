//! Works that are done in threads of their own, each with a pass of its own, at any machine.
ghost use Rattle.std.specs.Prelude.{◌≡◌, ℕ, ◌<◌, ◌^◌, [], All, map, length, IfOk, OnOk};
ghost use Rattle.turnstile_scenarios.specs.Ended.{HasEnded};

use fixed_num::OutOfMemory;
use std::alloc::{AllocError, Global};
use std::sync::Wait;
use std::thread;
use std::thread::Threads;
use turnstile::{Machine, Pass, Turnstile};

/// What is done with a pass.
pub trait Work<M: Machine>: Drop {
    /// Calls the machine with the pass.
    fn run<T: Wait>(&mut self, rt: &T, stile: &Turnstile<M>, pass: &mut Pass<M>)
        requires { pass.old.table ≡ stile.now.table }
        ensures same_table { pass.new.table ≡ pass.old.table }
        ensures number { pass.new.view.number ≡ pass.old.view.number };
}

/// A work, and the pass with which it is done.
#[derive(Drop)]
pub struct Job<M: Machine, W: Drop> {
    pub work: W,
    pub pass: Pass<M>,
}

/// Gives each work a pass of its own.
pub fn split_each<M: Machine, W: Drop>(
    alloc: Global,
    stile: &Turnstile<M>,
    first: &mut Pass<M>,
    works: Vec<W>,
) -> Result<Vec<Job<M, W>>, AllocError>
    requires same_table { first.old.table ≡ stile.now.table }
    requires first { first.old.view.number ≡ 0 }
    requires fresh { (first.old.view.split ≡ []) × (first.old.view.joined ≡ []) }
    requires few { length works.items < 2 ^ 32 }
    ensures first { (first.new.table ≡ first.old.table) × (first.new.view.number ≡ 0) }
    ensures split { IfOk result (λ jobs. map (λ job. job.pass.view.number) jobs.items ≡ first.new.view.split) }
    ensures same_tables { IfOk result (λ jobs. All (λ job. job.pass.table ≡ stile.now.table) jobs.items) }
{
    let mut jobs = Vec::new(alloc);
    for work in works {
        let pass = stile.split(first);
        jobs.push(Job { work, pass })?;
    }
    Ok(jobs)
}

/// Does a job.
pub fn done<T: Wait, M: Machine, W: Work<M>>(
    rt: &T,
    stile: &Turnstile<M>,
    job: Job<M, W>,
) -> Job<M, W>
    requires { job.pass.table ≡ stile.now.table }
    ensures { (result.pass.table ≡ job.pass.table) × (result.pass.view.number ≡ job.pass.view.number) }
{
    let Job { mut work, mut pass } = job;
    work.run(rt, stile, &mut pass);
    Job { work, pass }
}

/// Does each job in a thread of its own.
fn run_each<T: Threads + Wait + Sync, M: Machine + Send, W: Work<M> + Send>(
    rt: &T,
    stile: &Turnstile<M>,
    jobs: Vec<Job<M, W>>,
) -> Result<Vec<Job<M, W>>, AllocError>
where
    M::Op: Send,
    M::Answer: Send,
    requires { All (λ job. job.pass.table ≡ stile.now.table) jobs.items }
    ensures numbers { IfOk result (λ ended. map (λ job. job.pass.view.number) ended.items
        ≡ map (λ job. job.pass.view.number) jobs.items) }
    ensures same_tables { IfOk result (λ ended. All (λ job. job.pass.table ≡ stile.now.table) ended.items) }
{
    let ended = thread::map_vec(
        rt,
        jobs,
        &|job: Job<M, W>| -> Job<M, W>
            requires { job.pass.table ≡ stile.now.table }
            ensures { (result.pass.table ≡ job.pass.table) × (result.pass.view.number ≡ job.pass.view.number) }
        { done(rt, stile, job) },
    )?;
    Ok(ended)
}

/// Joins back each pass, and gives the works.
pub fn join_each<M: Machine, W: Drop>(
    alloc: Global,
    stile: &Turnstile<M>,
    first: &mut Pass<M>,
    jobs: Vec<Job<M, W>>,
) -> Result<Vec<W>, AllocError>
    requires same_table { first.old.table ≡ stile.now.table }
    requires first { first.old.view.number ≡ 0 }
    requires split { map (λ job. job.pass.view.number) jobs.items ≡ first.old.view.split }
    requires same_tables { All (λ job. job.pass.table ≡ stile.now.table) jobs.items }
    ensures first { (first.new.table ≡ first.old.table) × (first.new.view.number ≡ 0) }
    ensures all_back { OnOk result (first.new.view.split ≡ []) }
{
    let mut works = Vec::new(alloc);
    for job in jobs {
        let Job { work, pass } = job;
        stile.join(first, pass);
        works.push(work)?;
    }
    Ok(works)
}

/// Lets passes of a machine, with so many dials, do these works, each in a thread of its own. The machine is then as one
/// legal history of their calls leaves it. Where memory is short the works are let go, and the machine.
pub fn work_at<T: Threads + Wait + Sync, M: Machine + Send, W: Work<M> + Send>(
    rt: &T,
    alloc: Global,
    machine: M,
    dials: u32,
    works: Vec<W>,
) -> Result<(M, Vec<W>), OutOfMemory>
where
    M::Op: Send,
    M::Answer: Send,
    requires dials { (i : ℕ) → i < dials → M.dial_of machine i ≡ 0 }
    requires few { length works.items < 2 ^ 32 }
    ensures { IfOk result (λ r. HasEnded M.allows M.next machine r.0) }
{
    let Ok((stile, mut first)) = Turnstile::new(alloc, machine, dials) else {
        return Err(OutOfMemory);
    };
    let jobs = split_each(alloc, &stile, &mut first, works)?;
    let jobs = run_each(rt, &stile, jobs)?;
    let works = join_each(alloc, &stile, &mut first, jobs)?;
    Ok((stile.close(first), works))
}
