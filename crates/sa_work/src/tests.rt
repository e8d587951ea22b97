ghost use Rattle.std.specs.Prelude.{◌≤◌};

use super::*;
use sa_base::{FreeGate, Memory};
use sa_call::Reply;
use sa_loop::{Act, Gathered};
use sa_plain::push_items;
use sa_script::{Script, parse};
use std::alloc::Global;
use std::sync::Wait;
use std::test::Fail;
use std::thread::Threads;

/// Two tasks on one array, of which the second shows what the first put there.
const SCRIPT: &[u8] = b"descr d nan
array a d str 2
task
set a (\"x\",na)
show a
task
add a \"y\" into a
end
";

/// One task that sets three texts, adds overlapping views of them, and shows what came of it.
const OVERLAPPING: &[u8] = b"descr d nan
array a d str 3
task
set a (\"a\",\"b\",\"c\")
add a[0,2,1] a[1,2,1] into a[1,2,1]
show a
stats d
end
";

/// The digit of a small number.
fn digit(number: u32) -> u8 {
    match number {
        0 => b'0',
        1 => b'1',
        2 => b'2',
        3 => b'3',
        _ => b'?',
    }
}

/// Writes the task and the call of an act, a letter for its reply, and the items that it shows.
fn push_act(out: &mut Vec<u8>, act: &Act<'_>) -> Result<(), Memory> {
    out.push(digit(act.task()))?;
    out.push(digit(act.call()))?;
    match &act.outcome().reply {
        Reply::Done => out.push(b'd')?,
        Reply::Shown(items) => push_items(out, items)?,
        Reply::Sized(_) => out.push(b'z')?,
        Reply::Pictured(_) => out.push(b'p')?,
        Reply::Refused { .. } => out.push(b'r')?,
    }
    out.push(b' ')?;
    Ok(())
}

/// The acts of a run, in the order of its history.
fn told<G: Gathered>(alloc: Global, run: &G) -> Result<Vec<u8>, Memory> {
    let mut out = Vec::new(alloc);
    for k in 0..run.count() {
        if let Some(act) = run.act(k) {
            push_act(&mut out, act)?;
        }
    }
    Ok(out)
}

/// What so many workers tell, and how many lines the chain of the first task has.
fn by_workers<R: Threads + Wait + Sync>(
    rt: &R,
    alloc: Global,
    script: &Script,
    workers: u32,
) -> Result<(Vec<u8>, u64), Memory>
    requires { 1 ≤ workers }
{
    let run = run_tasks(rt, alloc, script, workers, &FreeGate)?;
    let told = told(alloc, &run);
    let lines = lines_of_first(&run);
    run.let_go();
    Ok((told?, lines))
}

/// How many lines the chain of the first task has; 0 where there is no task.
fn lines_of_first(run: &Threaded<'_>) -> u64 {
    match run.passes.first() {
        Some(pass) => pass.chain().count(),
        None => 0,
    }
}

#[test]
fn tasks_are_performed_one_after_another(rt: HostRuntime) -> Result<(), Fail> {
    let alloc = rt.alloc();
    let script = parse(alloc, SCRIPT)?;
    let run = run_serial(alloc, &script)?;
    assert_eq!(rt;
        told(alloc, &run)?.as_slice(),
        b"00d 01(\"x\",na) 10d ".as_slice()
    );
    Ok(())
}

#[test]
fn overlapping_views_are_read_before_they_are_written(rt: HostRuntime) -> Result<(), Fail> {
    let alloc = rt.alloc();
    let script = parse(alloc, OVERLAPPING)?;
    let (told, lines) = by_workers(&rt, alloc, &script, 4)?;
    assert_eq!(rt; lines, 4);
    assert_eq!(rt;
        told.as_slice(),
        b"00d 01d 02(\"a\",\"ab\",\"bc\") 03z ".as_slice()
    );
    Ok(())
}
