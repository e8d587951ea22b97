//! Tests by a gate that holds calls inside their locks until others were inside.
use super::*;
use crate::replay::order_of;
use crate::thread_tests::outcome;
use sa_base::{Gate, Memory};
use std::alloc::Global;
use std::sync::Wait;
use std::sync::atomic::{AtomicU64, Ordering};
use std::test::Fail;
use std::thread;
use std::thread::Threads;

/// The most turns that a call waits inside a gate for one that comes.
const TURNS: u32 = 10_000_000;

/// The turns that a call waits for one that cannot come.
const FEW_TURNS: u32 = 1_000;

/// Which calls a gate holds inside until others were.
#[derive(Clone, Copy, Debug, PartialEq, Eq)]
enum Held {
    /// The first calls of two tasks, each until a call of the other.
    Apart,
    /// The first call of a third task until one of two, and the first of these until its second.
    Beside,
    /// The first call of a task until that of another, which has the same lock.
    Same,
}

/// A gate that holds calls inside until others were inside. A call has a bit of its own.
#[derive(Drop)]
struct Meeting {
    /// The bits of the calls that were inside.
    inside: AtomicU64,
    /// How many calls waited in vain.
    vain: AtomicU64,
    held: Held,
    /// The most turns that a call waits.
    turns: u32,
}

/// The bit of a call.
fn bit(task: u32, call: u32) -> u64 {
    match (task, call) {
        (0, 0) => 1,
        (1, 0) => 2,
        (1, 1) => 4,
        (2, 0) => 8,
        (2, 1) => 16,
        _ => 0,
    }
}

impl Meeting {
    /// A gate in which no call was yet.
    fn new(held: Held, turns: u32) -> Meeting {
        Meeting {
            inside: AtomicU64::new(0),
            vain: AtomicU64::new(0),
            held,
            turns,
        }
    }

    /// The calls of which a call waits for one, where these were inside before it.
    fn awaited(&self, task: u32, call: u32, before: u64) -> u64 {
        match (self.held, task, call) {
            (Held::Apart, 0, 0) => bit(1, 1),
            (Held::Apart, 1, 0) => bit(0, 0),
            (Held::Beside, 2, 0) => bit(0, 0) | bit(1, 0),
            (Held::Beside, 0, 0) if before & bit(1, 0) == 0 => bit(2, 1),
            (Held::Beside, 1, 0) if before & bit(0, 0) == 0 => bit(2, 1),
            (Held::Same, 0, 0) => bit(1, 0),
            (Held::Same, 1, 0) => bit(0, 0),
            _ => 0,
        }
    }

    /// Waits until one of some calls was inside. Whether it came.
    fn wait(&self, some: u64) -> bool {
        'turns: for _ in 0..self.turns {
            if self.inside.load(Ordering::SeqCst) & some != 0 {
                return true;
            }
            thread::yield_now();
        }
        false
    }
}

impl Gate for Meeting {
    fn inside(&self, task: u32, call: u32) {
        let before = self.inside.fetch_or(bit(task, call), Ordering::SeqCst);
        let some = self.awaited(task, call, before);
        if some != 0 && !self.wait(some) {
            self.vain.fetch_add(1, Ordering::SeqCst);
        }
    }
}

/// Where a call stands in a report's history; behind all where it does not.
fn place_of(order: &[(usize, usize)], task: usize, call: usize) -> usize {
    match order.iter().position(|pair| *pair == (task, call)) {
        Some(at) => at,
        None => order.len(),
    }
}

/// What came of a run by a gate that holds calls inside.
#[derive(Drop)]
struct Met {
    status: Status,
    order: Vec<(usize, usize)>,
    /// The bits of the calls that were inside.
    inside: u64,
    /// How many calls waited in vain.
    vain: u64,
}

/// Runs a script by a gate that holds calls inside for so many turns at most.
fn run_by_gate<R: Threads + Wait + Sync>(
    rt: &R,
    alloc: Global,
    held: Held,
    turns: u32,
    workers: &str,
    script: &[u8],
) -> Result<Met, Memory> {
    let gate = Meeting::new(held, turns);
    let (status, written) = outcome(rt, alloc, &["run", workers], script, &gate)?;
    Ok(Met {
        status,
        order: order_of(alloc, written.as_slice())?,
        inside: gate.inside.load(Ordering::SeqCst),
        vain: gate.vain.load(Ordering::SeqCst),
    })
}

/// Each of two tasks waits inside for a call of the other.
const APART: &[u8] = b"descr d nan
descr e nan
array x d str 1
array y e str 1
task
set x \"a\"
task
set y \"b\"
set y \"c\"
end
";

/// Two tasks share a descriptor, and a third waits inside for one of them, and one of them for it.
const BESIDE: &[u8] = b"descr d nan
descr e nan
array x d str 1
array y e str 1
task
set x \"a\"
task
set x \"b\"
task
set y \"c\"
set y \"d\"
end
";

/// Two tasks have a call each on one descriptor.
const SAME: &[u8] = b"descr d nan
array x d str 1
task
set x \"a\"
task
set x \"b\"
end
";

#[test]
fn calls_on_two_descriptors_are_inside_at_once(rt: HostRuntime) -> Result<(), Fail> {
    let met = run_by_gate(&rt, rt.alloc(), Held::Apart, TURNS, "2", APART)?;
    assert_eq!(rt; met.status, Status::Done);
    assert_eq!(rt; met.inside, 7);
    assert_eq!(rt; met.vain, 0);
    assert_eq!(rt; met.order.len(), 3);
    assert!(rt; place_of(met.order.as_slice(), 1, 0) < place_of(met.order.as_slice(), 0, 0));
    Ok(())
}

#[test]
fn tasks_that_share_a_descriptor_run_beside_one_that_does_not(rt: HostRuntime) -> Result<(), Fail> {
    let met = run_by_gate(&rt, rt.alloc(), Held::Beside, TURNS, "3", BESIDE)?;
    let of_third = place_of(met.order.as_slice(), 2, 0);
    assert_eq!(rt; met.status, Status::Done);
    assert_eq!(rt; met.inside, 27);
    assert_eq!(rt; met.vain, 0);
    assert_eq!(rt; met.order.len(), 4);
    assert!(rt; of_third < place_of(met.order.as_slice(), 0, 0));
    assert!(rt; of_third < place_of(met.order.as_slice(), 1, 0));
    Ok(())
}

#[test]
fn calls_on_one_descriptor_are_never_inside_at_once(rt: HostRuntime) -> Result<(), Fail> {
    let met = run_by_gate(&rt, rt.alloc(), Held::Same, FEW_TURNS, "2", SAME)?;
    assert_eq!(rt; met.status, Status::Done);
    assert_eq!(rt; met.inside, 3);
    assert_eq!(rt; met.vain, 1);
    assert_eq!(rt; met.order.len(), 2);
    Ok(())
}

#[test]
fn one_worker_performs_one_task_after_another(rt: HostRuntime) -> Result<(), Fail> {
    let met = run_by_gate(&rt, rt.alloc(), Held::Apart, FEW_TURNS, "1", APART)?;
    assert_eq!(rt; met.status, Status::Done);
    assert_eq!(rt; met.vain, 1);
    assert_eq!(rt; met.order.as_slice(), [(0, 0), (1, 0), (1, 1)].as_slice());
    Ok(())
}
