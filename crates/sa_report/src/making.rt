ghost use Rattle.std.specs.Prelude.{◌≡◌, ◌++◌, length, map, decimal, OnOk, IfOk};
ghost use Rattle.std.specs.List.{flat_map};
ghost use Rattle.sa_loop.specs.Histories.{IsHistory, bodies_of};
ghost use Rattle.sa_report.specs.Plays.{report_of_play};
ghost use Rattle.sa_report.specs.Reports.{fault_line};

use crate::contents::{push_all_stats, push_arrays};
use crate::tasks::{push_history, push_marks, push_tasks};
use crate::writing::push_bytes;
use sa_base::Memory;
use sa_lines::push_decimal;
use sa_loop::Gathered;
use sa_script::Script;
use std::alloc::Global;

/// The report of a script and of what was gathered of a run of it. `Memory` where there is no memory for
/// it.
pub fn report<H: Gathered>(alloc: Global, script: &Script, from: &H) -> Result<Vec<u8>, Memory>
    requires decls { H.declared from.now ≡ script.now.decls }
    requires history { IsHistory (map length script.now.tasks) (H.pairs from.now) (H.marks from.now) }
    requires bodies { H.bodies from.now ≡ bodies_of script.now.tasks (H.pairs from.now) }
    ensures { IfOk result (λ bytes. bytes.items ≡ report_of_play script.now (H.pairs from.now) (H.marks from.now)) }
{
    let mut out = Vec::new(alloc);
    let tasks = script.tasks().as_slice();
    push_bytes(&mut out, b"report 1\nhistory")?;
    push_history(&mut out, from)?;
    push_bytes(&mut out, b"\nmarked")?;
    push_marks(&mut out, tasks, from)?;
    push_bytes(&mut out, b"\n")?;
    push_tasks(alloc, &mut out, tasks, from)?;
    push_arrays(alloc, &mut out, script, from)?;
    push_all_stats(&mut out, script, from)?;
    push_bytes(&mut out, b"end\n")?;
    Ok(out)
}

/// The line for a faulty script: the fault's number and its line.
pub fn fault_line(alloc: Global, code: u8, line: u64) -> Result<Vec<u8>, Memory>
    ensures { IfOk result (λ bytes. bytes.items ≡ fault_line code line) }
{
    let mut out = Vec::new(alloc);
    push_bytes(&mut out, b"fault ")?;
    push_decimal(&mut out, u64::from(code))?;
    push_bytes(&mut out, b" line ")?;
    push_decimal(&mut out, line)?;
    push_bytes(&mut out, b"\n")?;
    Ok(out)
}
