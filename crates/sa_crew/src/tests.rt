ghost use Rattle.std.specs.Prelude.{◌≤◌};

use super::*;
use sa_base::{FreeGate, Gate, Memory};
use std::alloc::Global;
use std::sync::Wait;
use std::test::Fail;
use std::thread::Threads;

/// Adds a number to each thing.
struct Adding(u64);

impl Job<u64> for Adding {
    ghost use Rattle.std.specs.Prelude.{◌<◌, ◌^◌};

    ghost ready = { λ job thing. Unit {0} };

    ghost done = { λ job thing result. result < 2 ^ 64 };

    fn perform<W: Wait, G: Gate>(&self, _rt: &W, _alloc: Global, _gate: &G, thing: u64) -> u64 {
        thing.wrapping_add(self.0)
    }
}

/// Each thing with 100 added to it, by so many workers.
fn added<R: Threads + Wait + Sync>(
    rt: &R,
    alloc: Global,
    things: Vec<u64>,
    workers: usize,
) -> Result<Vec<u64>, Memory>
    requires { 1 ≤ workers }
{
    work_all(rt, alloc, &FreeGate, &Adding(100), things, workers)
}

#[test]
fn each_thing_is_worked_on_once_by_any_number_of_workers(rt: HostRuntime) -> Result<(), Fail> {
    let alloc = rt.alloc();
    for workers in [1usize, 2, 3, 5, 16] {
        for count in [0u64, 1, 4, 23] {
            let mut things = Vec::new(alloc);
            let mut told = Vec::new(alloc);
            for k in 0..count {
                things.push(k)?;
                told.push(k.wrapping_add(100))?;
            }
            let all = added(&rt, alloc, things, workers)?;
            assert_eq!(rt; all.as_slice(), told.as_slice());
        }
    }
    Ok(())
}
