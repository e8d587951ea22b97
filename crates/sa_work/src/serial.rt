ghost use Rattle.std.specs.Prelude.{◌≡◌, ◌<◌, ◌++◌, ◌^◌, length, map, IfOk, OnOk};
ghost use Rattle.std.specs.List.{AllByRecursion};
ghost use Rattle.sa_call.specs.Valid.{IsCall};
ghost use Rattle.sa_loop.specs.declared.act.Act.{Act};
ghost use Rattle.sa_loop.specs.Gathers.{act_pair};
ghost use Rattle.sa_loop.specs.Histories.{bodies_of, pairs_from, serial};

use sa_base::Memory;
use sa_call::{Call, Decls};
use sa_loop::Listed;
use sa_script::Script;
use std::alloc::Global;

/// Performs the tasks of a script one after another, and gathers what came of it. It always returns.
pub fn run_serial<'s>(alloc: Global, script: &'s Script) -> Result<Listed<'s>, Memory>
    ensures decls { IfOk result (λ run. run.decls.now ≡ script.now.decls) }
    ensures history { IfOk result (λ run. map act_pair run.acts.items ≡ serial script.now.tasks) }
    ensures bodies { IfOk result (λ run. map (λ (a : Act). a.body.now) run.acts.items ≡ bodies_of script.now.tasks (serial script.now.tasks)) }
{
    let decls = script.decls();
    let tasks = script.tasks().as_slice();
    let mut run = Listed::new(alloc, decls)?;
    for task in 0..tasks.len() {
        let calls = tasks[task].as_slice();
        perform_task(alloc, decls, &mut run, task, calls)?;
    }
    Ok(run)
}

/// Performs the calls of a task, one after another.
fn perform_task<'s>(
    alloc: Global,
    decls: &'s Decls,
    run: &mut Listed<'s>,
    task: usize,
    calls: &'s [Call],
) -> Result<(), Memory>
    requires decls { decls.now ≡ run.old.decls.now }
    requires calls { AllByRecursion (IsCall decls.now) calls.now }
    requires few { (task < 2 ^ 32) × (length calls.now < 2 ^ 32) }
    ensures decls { run.new.decls.now ≡ run.old.decls.now }
    ensures pairs { OnOk result (map act_pair run.new.acts.items ≡ map act_pair run.old.acts.items ++ pairs_from task 0 (length calls.now)) }
    ensures bodies { OnOk result (map (λ (a : Act). a.body.now) run.new.acts.items ≡ map (λ (a : Act). a.body.now) run.old.acts.items ++ calls.now) }
{
    for number in 0..calls.len() {
        run.perform(alloc, decls, task as u32, number as u32, &calls[number])?;
    }
    Ok(())
}
