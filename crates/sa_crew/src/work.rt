//! The workers.
ghost use Rattle.std.specs.Prelude.{◌≡◌, ◌≤◌, ◌-◌, IfOk};
ghost use Rattle.std.specs.List.{AllByRecursion, AllZip};
ghost use Rattle.std.specs.Thread.{IsSync};
ghost use Rattle.sa_crew.specs.Shares.{firsts, others};

use crate::job::Job;
use crate::shares::{cut, woven};
use sa_base::{Gate, Memory};
use std::alloc::Global;
use std::sync::Wait;
use std::thread::{Threads, join};

/// Does a job for each thing, by so many workers, each in a thread of its own: worker `w` has the things
/// whose place modulo the number of workers is `w`, in rising order. What comes of a thing takes its place.
/// `Memory` where there is no memory to deal the things out or to put them together.
pub fn work_all<P: Drop + Send, J: Job<P> + Sync, R: Threads + Wait + Sync, G: Gate + Sync>(
    rt: &R,
    alloc: Global,
    gate: &G,
    job: &J,
    things: Vec<P>,
    workers: usize,
) -> Result<Vec<P>, Memory>
    requires some { 1 ≤ workers }
    requires ready { AllByRecursion (J.ready job.now) things.items }
    ensures { IfOk result (λ r. AllZip (J.done job.now) things.items r.items) }
{
    if workers == 1 {
        return work(rt, alloc, gate, job, things);
    }
    let (mine, rest) = dealt(alloc, job, things, workers - 1)?;
    let (mine, rest) = join(
        rt,
        || -> Result<Vec<P>, Memory>
            requires { IsSync R.row × IsSync J.row × IsSync G.row × AllByRecursion (J.ready job.now) mine.items }
            ensures { IfOk result (λ r. AllZip (J.done job.entry.now) mine.items r.items) }
        { work(rt, alloc, gate, job, mine) },
        || -> Result<Vec<P>, Memory>
            requires { IsSync R.row × IsSync J.row × IsSync G.row × (1 ≤ workers - 1) × AllByRecursion (J.ready job.now) rest.items }
            ensures { IfOk result (λ r. AllZip (J.done job.entry.now) rest.items r.items) }
        { work_all(rt, alloc, gate, job, rest, workers - 1) },
    );
    woven(alloc, mine?, rest?, workers - 1)
}

/// The things of one worker, and those of the others.
fn dealt<P: Drop, J: Job<P>>(
    alloc: Global,
    _job: &J,
    things: Vec<P>,
    skip: usize,
) -> Result<(Vec<P>, Vec<P>), Memory>
    requires { AllByRecursion (J.ready _job.now) things.items }
    ensures firsts { IfOk result (λ r. r.0.items ≡ firsts skip 0 things.items) }
    ensures others { IfOk result (λ r. r.1.items ≡ others skip 0 things.items) }
    ensures mine { IfOk result (λ r. AllByRecursion (J.ready _job.now) r.0.items) }
    ensures rest { IfOk result (λ r. AllByRecursion (J.ready _job.now) r.1.items) }
{
    cut(alloc, things, skip)
}

/// One worker: the job for each thing, in order.
fn work<P: Drop, J: Job<P>, W: Wait, G: Gate>(
    rt: &W,
    alloc: Global,
    gate: &G,
    job: &J,
    things: Vec<P>,
) -> Result<Vec<P>, Memory>
    requires { AllByRecursion (J.ready job.now) things.items }
    ensures { IfOk result (λ r. AllZip (J.done job.now) things.items r.items) }
{
    let mut all = Vec::with_capacity(alloc, things.len())?;
    for thing in things {
        all.push(job.perform(rt, alloc, gate, thing))?;
    }
    Ok(all)
}
