//! Tests of runs in threads.
ghost use Rattle.std.specs.Prelude.{◌≤◌};

use super::*;
use crate::replay::{Tasks, is_without_marks, order_of, script_of, told_anew, told_by};
use sa_base::{Gate, MemSink, MemSource, Memory};
use std::alloc::Global;
use std::sync::Wait;
use std::test::Fail;
use std::thread::Threads;

/// What the program answers and writes for these words and this input.
pub fn outcome<R: Threads + Wait + Sync, G: Gate + Sync>(
    rt: &R,
    alloc: Global,
    words: &[&str],
    input: &[u8],
    gate: &G,
) -> Result<(Status, Vec<u8>), Memory> {
    let mut list = Vec::new(alloc);
    for word in words {
        list.push(String::from_str(alloc, word)?)?;
    }
    let bytes = Vec::from_slice(alloc, input)?;
    let mut source = MemSource::new(bytes, 65_536, Vec::new(alloc));
    let mut sink = MemSink::new(alloc, 4_194_304, 65_536, Vec::new(alloc))?;
    let status = run(rt, alloc, list.as_slice(), &mut source, &mut sink, gate);
    let written = Vec::from_slice(alloc, sink.bytes())?;
    Ok((status, written))
}

/// What the program answers and writes with so many workers.
fn by_workers<R: Threads + Wait + Sync>(
    rt: &R,
    alloc: Global,
    workers: &str,
    input: &[u8],
) -> Result<(Status, Vec<u8>), Memory> {
    outcome(rt, alloc, &["run", workers], input, &FreeGate)
}

#[test]
fn a_number_of_workers_has_one_to_five_digits(rt: HostRuntime) -> Result<(), Fail> {
    let report = b"report 1\nhistory\nmarked\nend\n".as_slice();
    for workers in ["1", "2", "02", "16", "00016"] {
        let (status, written) = by_workers(&rt, rt.alloc(), workers, b"end\n")?;
        assert_eq!(rt; status, Status::Done, "at {workers}");
        assert_eq!(rt; written.as_slice(), report, "at {workers}");
    }
    for workers in ["0", "17", "+2", "-2", "", "2x", "000016", "65537"] {
        let (status, written) = by_workers(&rt, rt.alloc(), workers, b"end\n")?;
        assert_eq!(rt; status, Status::Words, "at {workers}");
        assert_eq!(rt; written.len(), 0, "at {workers}");
    }
    Ok(())
}

#[test]
fn other_words_are_those_of_the_run_that_waits_for_nobody(rt: HostRuntime) -> Result<(), Fail> {
    let alloc = rt.alloc();
    let (status, written) = outcome(&rt, alloc, &["serial"], b"foo\n", &FreeGate)?;
    assert_eq!(rt; status, Status::Script);
    assert_eq!(rt; written.as_slice(), b"fault 2 line 1\n".as_slice());
    let (status, written) = outcome(&rt, alloc, &["run"], b"end\n", &FreeGate)?;
    assert_eq!(rt; status, Status::Words);
    assert_eq!(rt; written.len(), 0);
    let (status, written) = by_workers(&rt, alloc, "3", b"end\nend\n")?;
    assert_eq!(rt; status, Status::Script);
    assert_eq!(rt; written.as_slice(), b"fault 3 line 2\n".as_slice());
    Ok(())
}

/// Two descriptors, each with a strings array and a plain one.
const TWO: &[u8] = b"descr d nan
descr e nan
array a d str 2
array b e str 2
array n d int 2
array f e bool 2
";

/// Two tasks of so many calls, each of which adds across the descriptors.
fn adding_across<'a>(alloc: Global, count: usize) -> Result<Tasks<'a>, Memory> {
    let mut first = Vec::new(alloc);
    let mut second = Vec::new(alloc);
    for _ in 0..count {
        first.push(b"add b \"1\" into a".as_slice())?;
        second.push(b"add a \"2\" into b".as_slice())?;
    }
    let mut tasks = Vec::new(alloc);
    tasks.push(first)?;
    tasks.push(second)?;
    Ok(Tasks { head: TWO, tasks })
}

/// The calls of a task.
fn calls_of<'a>(alloc: Global, lines: &[&'a [u8]]) -> Result<Vec<&'a [u8]>, Memory> {
    let mut all = Vec::new(alloc);
    for line in lines {
        all.push(*line)?;
    }
    Ok(all)
}

/// Four tasks, of which each call is on one or on both descriptors, and three show what they find.
fn showing<'a>(alloc: Global) -> Result<Tasks<'a>, Memory> {
    let first: [&'a [u8]; 3] = [b"set a \"x\"", b"add b \"1\" into a", b"find a b into n"];
    let second: [&'a [u8]; 3] = [b"set b \"y\"", b"add a \"2\" into b", b"equal b a into f"];
    let third: [&'a [u8]; 3] = [b"show a", b"multiply a n into b", b"show f"];
    let fourth: [&'a [u8]; 3] = [b"show b", b"stats e", b"show n"];
    let mut tasks = Vec::new(alloc);
    tasks.push(calls_of(alloc, &first)?)?;
    tasks.push(calls_of(alloc, &second)?)?;
    tasks.push(calls_of(alloc, &third)?)?;
    tasks.push(calls_of(alloc, &fourth)?)?;
    Ok(Tasks { head: TWO, tasks })
}

/// Whether an order holds each task's calls once and in order.
fn has_each_call(tasks: &Tasks<'_>, order: &[(usize, usize)]) -> bool {
    for number in 0..tasks.tasks.len() {
        let mut next = 0usize;
        for (task, call) in order {
            if *task == number {
                if *call != next {
                    return false;
                }
                next = next.wrapping_add(1);
            }
        }
        if let Some(calls) = tasks.tasks.get(number) {
            if next != calls.len() {
                return false;
            }
        }
    }
    true
}

/// How many lines bytes have.
fn line_count(bytes: &[u8]) -> usize {
    let mut count = 0usize;
    for byte in bytes {
        if *byte == b'\n' {
            count = count.wrapping_add(1);
        }
    }
    count
}

/// What is not so of a run of a script of four arrays and two descriptors by so many workers: it does all
/// calls once and in order, marks none, and tells what its own order gives. The empty text where all is so.
fn fault_of_play<R: Threads + Wait + Sync>(
    rt: &R,
    alloc: Global,
    tasks: &Tasks<'_>,
    workers: &str,
    count: usize,
) -> Result<&'static str, Memory> {
    let script = script_of(alloc, tasks)?;
    let (status, written) = by_workers(rt, alloc, workers, script.as_slice())?;
    let order = order_of(alloc, written.as_slice())?;
    let told = told_by(alloc, written.as_slice())?;
    let anew = told_anew(alloc, tasks, written.as_slice())?;
    if status != Status::Done {
        return Ok("the status");
    }
    if !is_without_marks(written.as_slice()) {
        return Ok("the marks");
    }
    if order.len() != count || !has_each_call(tasks, order.as_slice()) {
        return Ok("the order");
    }
    // a line for each call, array and descriptor
    if line_count(told.as_slice()) != count.wrapping_add(6) {
        return Ok("what is told");
    }
    if told.as_slice() != anew.as_slice() {
        return Ok("the play");
    }
    Ok("")
}

#[test]
fn a_thousand_calls_across_two_descriptors_are_a_play(rt: HostRuntime) -> Result<(), Fail> {
    let tasks = adding_across(rt.alloc(), 500)?;
    assert_eq!(rt; fault_of_play(&rt, rt.alloc(), &tasks, "4", 1_000)?, "");
    Ok(())
}

#[test]
fn runs_by_one_to_sixteen_workers_are_plays(rt: HostRuntime) -> Result<(), Fail> {
    let tasks = showing(rt.alloc())?;
    let workers = [
        "1", "2", "3", "4", "5", "6", "7", "8", "9", "10", "11", "12", "13", "14", "15", "16", "2",
        "3", "4", "16",
    ];
    for number in workers {
        assert_eq!(rt;
            fault_of_play(&rt, rt.alloc(), &tasks, number, 12)?,
            "",
            "at {number}"
        );
    }
    Ok(())
}
