//! From the end of a run's threads to what it gathered.
ghost use Rattle.std.specs.Prelude.{◌≡◌, ◌<◌, length, map, IfOk};
ghost use Rattle.std.specs.List.{AllByRecursion};
ghost use Rattle.sa_journal.specs.Chains.{chain_of};
ghost use Rattle.sa_journal.specs.Journals.{IsOf};
ghost use Rattle.sa_journal.specs.declared.party.Party.TheVariants.{Task};
ghost use Rattle.sa_hall.specs.Passes.{PassValue};
ghost use Rattle.sa_loop.specs.Histories.{IsHistory, bodies_of};
ghost use Rattle.sa_loop.specs.OneHistory.{line_pair};
ghost use Rattle.sa_loop.specs.Openings.{shapes_of};
ghost use Rattle.sa_loop.specs.Orders.{line_call};
ghost use Rattle.sa_work.specs.Crews.{AreDone};
ghost use Rattle.sa_work.specs.Threads.{marks_of};

use crate::threaded::Threaded;
use sa_base::Memory;
use sa_hall::{Hall, Pass};
use sa_journal::{Binding, Deed, Ended, Journal};
use sa_loop::Act;
use sa_script::Script;
use std::alloc::Global;

/// Ends the journal and the hall of a run whose tasks are done, and compares each chain with the journal.
pub(crate) fn gather<'s, B: Binding>(
    alloc: Global,
    script: &'s Script,
    journal: Journal<Act<'s>, B>,
    hall: Hall<Act<'s>, B>,
    passes: Vec<Pass<Act<'s>>>,
) -> Result<Threaded<'s>, Memory>
    requires shapes { B.shapes ≡ shapes_of script.now.decls }
    requires tasks { B.tasks ≡ length script.now.tasks }
    requires done { AreDone B.roll B.ties script.now 0 script.now.tasks (map (λ (p : PassValue _). p.it) passes.items) }
    ensures decls { IfOk result (λ run. run.decls.now ≡ script.now.decls) }
    ensures history { IfOk result (λ run. IsHistory (map length script.now.tasks) (map line_pair run.ended.lines) (marks_of run.passes.items)) }
    ensures bodies { IfOk result (λ run. map line_call run.ended.lines ≡ bodies_of script.now.tasks (map line_pair run.ended.lines)) }
{
    let _sound = script.tasks();
    let mut ended = journal.end(alloc)?;
    let mut quiet = hall.end();
    quiet.compare(&mut ended);
    let passes = compared(alloc, &mut ended, passes)?;
    Ok(Threaded {
        decls: script.decls(),
        ended,
        quiet,
        passes,
    })
}

/// Compares each pass's chain with the ended journal: it is the journal's lines of its task, in order.
/// Nothing changes.
fn compared<D: Deed>(
    alloc: Global,
    ended: &mut Ended<D>,
    passes: Vec<Pass<D>>,
) -> Result<Vec<Pass<D>>, Memory>
    requires { AllByRecursion (λ (p : PassValue _). IsOf ended.old.roll ended.old.ties ended.old.descrs p.it.chain × (p.it.task < ended.old.tasks)) passes.items }
    ensures ended { ended.new ≡ ended.old }
    ensures passes { IfOk result (λ all. all.items ≡ passes.items) }
    ensures whole { IfOk result (λ all. AllByRecursion (λ (p : PassValue _). p.it.chain.lines ≡ chain_of D.said (Task p.it.task) ended.new.lines) all.items) }
{
    let mut all = Vec::with_capacity(alloc, passes.len())?;
    for pass in passes {
        let mut pass = pass;
        pass.compare(ended);
        all.push(pass)?;
    }
    Ok(all)
}
