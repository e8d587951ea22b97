//! What a worker does with a task.
ghost use Rattle.std.specs.Prelude.{◌≡◌, ◌+◌, ◌<◌, ◌^◌, length};
ghost use Rattle.std.specs.List.{AllByRecursion};
ghost use Rattle.sa_call.specs.Valid.{IsCall};
ghost use Rattle.sa_journal.specs.Journals.{IsOf};
ghost use Rattle.sa_hall.specs.Passes.{with_mark};
ghost use Rattle.sa_loop.specs.OneHistory.{IsAt};
ghost use Rattle.sa_loop.specs.Openings.{shapes_of};
ghost use Rattle.sa_work.specs.Crews.{IsReady, IsDone};

use sa_base::Gate;
use sa_call::Call;
use sa_crew::Job;
use sa_hall::{Hall, Pass};
use sa_journal::{Binding, Journal};
use sa_loop::{Act, perform_call};
use sa_script::Script;
use std::alloc::Global;
use std::sync::Wait;

/// What all workers of a run share: its script, its descriptors under their locks, and its journal. The
/// job of a worker is a task: its calls, in order, each under its locks.
#[derive(Drop)]
pub(crate) struct Crew<'a, 's, B: Binding> {
    pub script: &'s Script,
    pub hall: &'a Hall<Act<'s>, B>,
    pub journal: &'a Journal<Act<'s>, B>,
    ghost shapes_are: { B.shapes ≡ shapes_of script.now.decls },
    ghost tasks_are: { B.tasks ≡ length script.now.tasks },
}

impl<'a, 's, B: Binding> Job<Pass<Act<'s>>> for Crew<'a, 's, B> {
    ghost use Rattle.sa_work.specs.Crews.{IsReady, IsDone};

    ghost ready = { λ crew pass. IsReady B.roll B.ties crew.script.now pass.it };

    ghost done = { λ crew pass result. IsDone B.roll B.ties crew.script.now pass.it result.it };

    fn perform<W: Wait, G: Gate>(
        &self,
        rt: &W,
        alloc: Global,
        gate: &G,
        thing: Pass<Act<'s>>,
    ) -> Pass<Act<'s>> {
        perform_task(rt, alloc, gate, self, thing)
    }
}

/// Performs the calls of a task, in order. A call for which there is no memory is marked, and the task goes
/// on.
fn perform_task<'s, B: Binding, W: Wait, G: Gate>(
    rt: &W,
    alloc: Global,
    gate: &G,
    crew: &Crew<'_, 's, B>,
    pass: Pass<Act<'s>>,
) -> Pass<Act<'s>>
    requires { IsReady B.roll B.ties crew.now.script.now pass.it }
    ensures { IsDone B.roll B.ties crew.now.script.now pass.entry.it result.it }
{
    let calls = crew.script.tasks().as_slice()[pass.task() as usize].as_slice();
    let mut pass = pass;
    for number in 0..calls.len() {
        pass = perform_or_mark(rt, alloc, gate, crew, calls, pass, number);
    }
    pass
}

/// Performs a call of a task, or marks it where there is no memory for it.
fn perform_or_mark<'s, B: Binding, W: Wait, G: Gate>(
    rt: &W,
    alloc: Global,
    gate: &G,
    crew: &Crew<'_, 's, B>,
    calls: &'s [Call],
    pass: Pass<Act<'s>>,
    number: usize,
) -> Pass<Act<'s>>
    requires valid { AllByRecursion (IsCall crew.now.script.now.decls) calls.now }
    requires few { length calls.now < 2 ^ 32 }
    requires within { number < length calls.now }
    requires task { pass.it.task < B.tasks }
    requires of { IsOf B.roll B.ties (length B.shapes) pass.it.chain }
    requires at { IsAt crew.now.script.now.decls calls.now number pass.it }
    ensures task { result.it.task ≡ pass.entry.it.task }
    ensures of { IsOf B.roll B.ties (length B.shapes) result.it.chain }
    ensures at { IsAt crew.now.script.now.decls calls.now (number + 1) result.it }
{
    let decls = crew.script.decls();
    let call = &calls[number];
    let number = number as u32;
    match perform_call(
        rt,
        alloc,
        decls,
        crew.hall,
        crew.journal,
        gate,
        pass,
        number,
        call,
    ) {
        (Ok(_), next) => next,
        (Err(_), next) => marked(next, number),
    }
}

/// The pass with a mark for a call.
fn marked<'s>(pass: Pass<Act<'s>>, call: u32) -> Pass<Act<'s>>
    requires { call < length pass.it.marks }
    ensures { result.it ≡ with_mark pass.entry.it call }
{
    let mut pass = pass;
    pass.mark(call);
    pass
}
