ghost use Rattle.std.specs.Prelude.{◌≡◌};
ghost use Rattle.sa_call.specs.Decides.{decide};
ghost use Rattle.sa_call.specs.Told.{homes_of, parts_told, AreLight, AreOperands, AreWeights};
ghost use Rattle.sa_call.specs.Valid.{IsCall};

use crate::call_homes::homes;
use sa_base::Sequence;
use sa_call::{Call, Decls, Operands, Outcome};
use sa_journal::Locks;

/// Weights that were read, a number for each descriptor of a call.
pub type WeightList = Sequence<u64>;

/// A call that took effect: which one it is, the descriptors that it is on, whose locks it has, what it
/// read, and what came of it. Where it was too heavy to read, it has the weight of what it would have read
/// of each of its descriptors. Every act keeps that what it read is all that its call reads, at its call's
/// places, that its outcome is the definition's for that, that what was read weighs no more than a call
/// may, and that the weights of a call that was not read say that it weighs more.
#[derive(Debug, Drop)]
pub struct Act<'s> {
    decls: &'s Decls,
    task: u32,
    number: u32,
    body: &'s Call,
    locks: Locks,
    read: Operands,
    weights: WeightList,
    outcome: Outcome,
    ghost is_call: { ∥ IsCall decls.now body.now ∥₁ },
    ghost locks_are: { locks ≡ homes_of decls.now body.now },
    ghost are_operands: { ∥ AreOperands decls.now body.now read ∥₁ },
    ghost are_weights: { ∥ AreWeights decls.now body.now read weights ∥₁ },
    ghost are_light: { ∥ AreLight decls.now body.now read weights ∥₁ },
    ghost decided: { outcome ≡ decide decls.now body.now (parts_told decls.now body.now read weights) },
}

impl<'s> Act<'s> {
    /// The act of a call: the call `number` of a task, what was read for it, and what came of that. It
    /// takes no memory.
    pub fn new(
        decls: &'s Decls,
        task: u32,
        number: u32,
        body: &'s Call,
        read: Operands,
        weights: WeightList,
        outcome: Outcome,
    ) -> Act<'s>
        requires call { IsCall decls.now body.now }
        requires operands { AreOperands decls.now body.now read }
        requires weights { AreWeights decls.now body.now read weights }
        requires light { AreLight decls.now body.now read weights }
        requires decided { outcome ≡ decide decls.now body.now (parts_told decls.now body.now read weights) }
        ensures { (result.decls.now ≡ decls.now) × (result.task ≡ task) × (result.number ≡ number) × (result.body.now ≡ body.now) × (result.outcome ≡ outcome) × (result.read ≡ read) × (result.weights ≡ weights) × (result.locks ≡ homes_of decls.now body.now) }
    {
        let locks = homes(decls, body);
        Act {
            decls,
            task,
            number,
            body,
            locks,
            read,
            weights,
            outcome,
        }
    }

    /// The number of its task.
    pub fn task(&self) -> u32
        ensures { result ≡ self.now.task }
    {
        self.task
    }

    /// The number of the call in its task.
    pub fn call(&self) -> u32
        ensures { result ≡ self.now.number }
    {
        self.number
    }

    /// The declarations that it was performed under.
    pub fn decls(&self) -> &Decls
        ensures { result.now ≡ self.now.decls.now }
    {
        self.decls
    }

    /// The call itself.
    pub fn body(&self) -> &Call
        ensures { result.now ≡ self.now.body.now }
    {
        self.body
    }

    /// The descriptors that the call is on, whose locks it has.
    pub fn locks(&self) -> &Locks
        ensures { result.now ≡ self.now.locks }
    {
        &self.locks
    }

    /// What was read.
    pub fn operands(&self) -> &Operands
        ensures { result.now ≡ self.now.read }
    {
        &self.read
    }

    /// Of a heavy call the weight of what it takes of each of its descriptors, in their order; else
    /// nothing.
    pub fn weights(&self) -> &[u64]
        ensures { result.now ≡ self.now.weights }
    {
        self.weights.as_slice()
    }

    /// What came of it: its results and its reply.
    pub fn outcome(&self) -> &Outcome
        ensures { result.now ≡ self.now.outcome }
    {
        &self.outcome
    }
}
