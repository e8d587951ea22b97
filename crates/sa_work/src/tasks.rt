//! A run in threads.
ghost use Rattle.std.specs.Prelude.{◌≡◌, ◌+◌, ◌<◌, ◌≤◌, ◌^◌, All, List, length, map, IfOk};
ghost use Rattle.sa_call.specs.declared.call.Call.{Call};
ghost use Rattle.sa_journal.specs.Journals.{IsFresh};
ghost use Rattle.sa_loop.specs.Histories.{IsHistory, bodies_of};
ghost use Rattle.sa_loop.specs.OneHistory.{line_pair};
ghost use Rattle.sa_loop.specs.Openings.{shapes_of};
ghost use Rattle.sa_loop.specs.Orders.{line_call};
ghost use Rattle.sa_work.specs.Threads.{marks_of};

use crate::crew::Crew;
use crate::gather::gather;
use crate::threaded::Threaded;
use sa_base::{Gate, Memory};
use sa_call::CallList;
use sa_crew::work_all;
use sa_journal::{Binding, Roll, Tie, TieList};
use sa_loop::{Act, Opened, open_run};
use sa_script::Script;
use sa_tie::tie;
use std::alloc::Global;
use std::marker::Brand;
use std::sync::Wait;
use std::thread::Threads;

/// Performs the tasks of a script on so many workers, each in a thread of its own: worker `w` performs the
/// tasks whose number modulo the workers is `w`, in rising order. A call takes effect under the locks of its
/// descriptors; one for which there is no memory is marked, and its task goes on. What comes back is one
/// history of the script's calls. It may wait. `Memory` where there is no memory for the run itself.
pub fn run_tasks<'s, R: Threads + Wait + Sync, G: Gate + Sync>(
    rt: &R,
    alloc: Global,
    script: &'s Script,
    workers: u32,
    gate: &G,
) -> Result<Threaded<'s>, Memory>
    requires { 1 ≤ workers }
    ensures decls { IfOk result (λ run. run.decls.now ≡ script.now.decls) }
    ensures history { IfOk result (λ run. IsHistory (map length script.now.tasks) (map line_pair run.ended.lines) (marks_of run.passes.items)) }
    ensures bodies { IfOk result (λ run. map line_call run.ended.lines ≡ bodies_of script.now.tasks (map line_pair run.ended.lines)) }
{
    let roll = Roll::<Act<'s>>::new(alloc)?;
    let parties = script.decls().descrs().len() + script.tasks().len();
    let ties = new_ties(alloc, parties)?;
    run_within::<Brand, R, G>(rt, alloc, script, workers, gate, roll, ties)
}

/// The run over this roll and these ties.
fn run_within<'s, B: Binding + Send + Sync, R: Threads + Wait + Sync, G: Gate + Sync>(
    rt: &R,
    alloc: Global,
    script: &'s Script,
    workers: u32,
    gate: &G,
    roll: Roll<Act<'s>>,
    ties: TieList,
) -> Result<Threaded<'s>, Memory>
    requires workers { 1 ≤ workers }
    requires roll { roll ≡ B.roll }
    requires ties { map (λ t. t.near.tie) ties ≡ B.ties }
    requires fresh { All IsFresh ties }
    requires count { length ties ≡ length script.now.decls.descrs + length script.now.tasks }
    requires shapes { B.shapes ≡ shapes_of script.now.decls }
    requires tasks { B.tasks ≡ length script.now.tasks }
    ensures decls { IfOk result (λ run. run.decls.now ≡ script.now.decls) }
    ensures history { IfOk result (λ run. IsHistory (map length script.now.tasks) (map line_pair run.ended.lines) (marks_of run.passes.items)) }
    ensures bodies { IfOk result (λ run. map line_call run.ended.lines ≡ bodies_of script.now.tasks (map line_pair run.ended.lines)) }
{
    let counts = call_counts(alloc, script.tasks().as_slice())?;
    let Opened {
        journal,
        hall,
        passes,
    } = open_run::<Act<'s>, B>(alloc, script.decls(), counts.as_slice(), roll, ties)?;
    let crew = Crew {
        script,
        hall: &hall,
        journal: &journal,
    };
    let passes = work_all(rt, alloc, gate, &crew, passes, workers as usize)?;
    gather(alloc, script, journal, hall, passes)
}

/// How many calls each task has.
fn call_counts(alloc: Global, tasks: &[CallList]) -> Result<Vec<u32>, Memory>
    requires { All (λ (calls : List Call). length calls < 2 ^ 32) tasks.now }
    ensures { IfOk result (λ counts. counts.items ≡ map length tasks.now) }
{
    let mut counts = Vec::with_capacity(alloc, tasks.len())?;
    for calls in tasks {
        counts.push(calls.as_slice().len() as u32)?;
    }
    Ok(counts)
}

/// As many new ties as a journal has parties.
fn new_ties(alloc: Global, parties: usize) -> Result<TieList, Memory>
    ensures fresh { IfOk result (λ ties. All IsFresh ties) }
    ensures count { IfOk result (λ ties. length ties ≡ parties) }
{
    let mut ties = TieList::new(alloc);
    for _ in 0..parties {
        let (near, far) = tie(alloc)?;
        ties.push(Tie { near, far })?;
    }
    Ok(ties)
}
