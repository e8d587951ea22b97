ghost use Rattle.std.specs.Prelude.{◌≡◌, ◌++◌, ◌≤◌, length, map, sum_by, OnOk, IfOk};
ghost use Rattle.std.specs.List.{flat_map};
ghost use Rattle.sa_loop.specs.Held.{IsPlay};
ghost use Rattle.sa_loop.specs.Histories.{marked_from, marked_calls};
ghost use Rattle.sa_script.specs.Limits.{most_tasks, most_calls};
ghost use Rattle.sa_report.specs.Reports.{spaced_pair, call_lines, replies_of, task_line, task_lines};

use crate::writing::{push_bytes, push_call_line, push_memory_line, push_pair};
use sa_base::Memory;
use sa_call::{CallList, Reply};
use sa_lines::push_decimal;
use sa_loop::Gathered;
use std::alloc::Global;

/// Writes the history's pairs, each behind a space.
pub fn push_history<H: Gathered>(out: &mut Vec<u8>, from: &H) -> Result<(), Memory>
    ensures written { OnOk result (out.new.items ≡ out.old.items ++ flat_map spaced_pair (H.pairs from.now)) }
    ensures played { IsPlay (H.declared from.now) (H.holds from.now) (H.bodies from.now) (H.replies from.now) }
{
    for k in 0..from.count() {
        let Some(act) = from.act(k) else {
            unreachable!()
        };
        push_pair(out, (act.task(), act.call()))?;
    }
    Ok(())
}

/// Writes the marked calls, by task and then by call, each behind a space.
pub fn push_marks<H: Gathered>(
    out: &mut Vec<u8>,
    tasks: &[CallList],
    from: &H,
) -> Result<(), Memory>
    requires few { length tasks.now ≤ most_tasks }
    requires calls { sum_by length tasks.now ≤ most_calls }
    ensures { OnOk result (out.new.items ≡ out.old.items ++ flat_map spaced_pair (marked_from (H.marks from.now) 0 (map length tasks.now))) }
{
    for task in 0..tasks.len() {
        push_task_marks(out, task as u32, tasks[task].len() as u32, from)?;
    }
    Ok(())
}

/// Writes the marked calls of a task with this many calls.
fn push_task_marks<H: Gathered>(
    out: &mut Vec<u8>,
    task: u32,
    calls: u32,
    from: &H,
) -> Result<(), Memory>
    ensures { OnOk result (out.new.items ≡ out.old.items ++ flat_map spaced_pair (marked_calls (H.marks from.now task) task 0 calls)) }
{
    for call in 0..calls {
        if from.marked(task, call) {
            push_pair(out, (task, call))?;
        }
    }
    Ok(())
}

/// Writes the tasks, each with its calls and their replies.
pub fn push_tasks<H: Gathered>(
    alloc: Global,
    out: &mut Vec<u8>,
    tasks: &[CallList],
    from: &H,
) -> Result<(), Memory>
    requires few { length tasks.now ≤ most_tasks }
    requires calls { sum_by length tasks.now ≤ most_calls }
    ensures { OnOk result (out.new.items ≡ out.old.items ++ task_lines (H.pairs from.now) (H.marks from.now) (H.replies from.now) 0 tasks.now) }
{
    for task in 0..tasks.len() {
        push_task(alloc, out, task as u32, tasks[task].len() as u32, from)?;
    }
    Ok(())
}

/// Writes a task of this many calls, with their replies.
fn push_task<H: Gathered>(
    alloc: Global,
    out: &mut Vec<u8>,
    task: u32,
    calls: u32,
    from: &H,
) -> Result<(), Memory>
    ensures { OnOk result (out.new.items ≡ out.old.items ++ (task_line task ++ call_lines (H.marks from.now task) 0 calls (replies_of task (H.pairs from.now) (H.replies from.now)))) }
{
    let replies = replies_of(alloc, task, from)?;
    push_bytes(out, b"task ")?;
    push_decimal(out, u64::from(task))?;
    push_bytes(out, b"\n")?;
    push_calls(out, task, calls, from, replies.as_slice())
}

/// The replies to the calls of a task, in the order of the history.
fn replies_of<'h, H: Gathered>(
    alloc: Global,
    task: u32,
    from: &'h H,
) -> Result<Vec<&'h Reply>, Memory>
    ensures { IfOk result (λ replies. map (λ r. r.now) replies.items ≡ replies_of task (H.pairs from.now) (H.replies from.now)) }
{
    let mut replies = Vec::new(alloc);
    for k in 0..from.count() {
        let Some(act) = from.act(k) else {
            unreachable!()
        };
        if act.task() == task {
            replies.push(&act.outcome().reply)?;
        }
    }
    Ok(replies)
}

/// Writes the lines of a task's calls: a marked one found no memory, and each other has the next of these
/// replies.
fn push_calls<H: Gathered>(
    out: &mut Vec<u8>,
    task: u32,
    calls: u32,
    from: &H,
    replies: &[&Reply],
) -> Result<(), Memory>
    ensures { OnOk result (out.new.items ≡ out.old.items ++ call_lines (H.marks from.now task) 0 calls (map (λ r. r.now) replies.now)) }
{
    let mut next = 0usize;
    for call in 0..calls {
        if from.marked(task, call) {
            push_memory_line(out, call)?;
            continue;
        }
        if next >= replies.len() {
            return Ok(());
        }
        push_call_line(out, call, replies[next])?;
        next += 1;
    }
    Ok(())
}
