//! What is done for each thing.
use sa_base::Gate;
use std::alloc::Global;
use std::sync::Wait;

/// A job, done for one thing after another, in any thread. It may wait.
pub trait Job<P> {
    /// What a thing must be for the job.
    ghost ready: { Self → P → Type 0 };

    /// What the job makes of a thing.
    ghost done: { Self → P → P → Type 0 };

    /// Does the job for a thing, and gives what came of it. The gate is the run's.
    fn perform<W: Wait, G: Gate>(&self, rt: &W, alloc: Global, gate: &G, thing: P) -> P
        requires { ready self.now thing }
        ensures { done self.now thing result };
}
