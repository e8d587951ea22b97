//! What a run in threads gathered.
ghost use Rattle.std.specs.Prelude.{◌≡◌, ℕ, length, map, nat_lt, slice_get};
ghost use Rattle.std.specs.List.{range_with_len};
ghost use Rattle.std.specs.Option.{option_copied};
ghost use Rattle.std.proofs.Props.{props};
ghost use Rattle.sa_hall.specs.Holds.{held_at, is_held};
ghost use Rattle.sa_loop.specs.OneHistory.{flag_at};
ghost use Rattle.sa_loop.specs.Orders.{line_call, line_reply};
ghost use Rattle.sa_loop.specs.Plays.{play_replies, play_world};
ghost use Rattle.sa_loop.specs.Runs.{shown};
ghost use Rattle.sa_loop.specs.States.{lengths_of};
ghost use Rattle.sa_work.specs.Threads.{holds_of};

use sa_alloc::Store;
use sa_call::Decls;
use sa_hall::{Pass, Quiet};
use sa_journal::Ended;
use sa_loop::{Act, Gathered};
use sa_plain::Plain;

/// A run in threads: the ended journal, the descriptors that it leaves, and the passes of its tasks with
/// their marks. Every such run keeps that the replies of its lines and its descriptors are those of the play
/// of its lines' calls.
#[derive(Drop)]
pub struct Threaded<'s> {
    pub(crate) decls: &'s Decls,
    pub(crate) ended: Ended<Act<'s>>,
    pub(crate) quiet: Quiet<Act<'s>>,
    pub(crate) passes: Vec<Pass<Act<'s>>>,
    ghost there: { (d : ℕ) → is_held (held_at quiet d) ≡ nat_lt d (length decls.now.descrs) } by { Prim.hlevel props },
    ghost shaped: { map (λ d. (holds_of quiet d).layout.lengths) (range_with_len 0 (length decls.now.descrs)) ≡ map (lengths_of decls.now) (range_with_len 0 (length decls.now.descrs)) },
    ghost replied: { map line_reply ended.lines ≡ play_replies decls.now (map line_call ended.lines) },
    ghost left: { map (λ d. shown (holds_of quiet d)) (range_with_len 0 (length decls.now.descrs)) ≡ map (play_world decls.now (map line_call ended.lines)) (range_with_len 0 (length decls.now.descrs)) },
}

impl Threaded<'_> {
    /// Frees what was gathered. A caller that lets the run go by itself has to prove the same of each of
    /// its parts anew.
    pub fn let_go(self) {}
}

impl<'s> Gathered for Threaded<'s> {
    ghost use Rattle.std.specs.Prelude.{map};
    ghost use Rattle.sa_loop.specs.OneHistory.{line_pair};
    ghost use Rattle.sa_loop.specs.OneHistory.{flag_at};
    ghost use Rattle.sa_loop.specs.Orders.{line_call, line_reply};
    ghost use Rattle.sa_work.specs.Threads.{holds_of, marks_of};

    ghost declared = { λ t. t.decls.now };

    ghost pairs = { λ t. map line_pair t.ended.lines };

    ghost bodies = { λ t. map line_call t.ended.lines };

    ghost replies = { λ t. map line_reply t.ended.lines };

    ghost marks = { λ t. marks_of t.passes.items };

    ghost holds = { λ t. holds_of t.quiet };

    fn count(&self) -> u64 {
        self.ended.count()
    }

    fn act(&self, k: u64) -> Option<&Act<'_>> {
        let line = self.ended.line(k)?;
        Some(&line.deed)
    }

    fn marked(&self, task: u32, call: u32) -> bool {
        match self.passes.get(task as usize) {
            Some(pass) => is_marked(pass, call),
            None => false,
        }
    }

    fn store(&self, number: u8) -> Option<&Store> {
        let domain = self.quiet.domain(number)?;
        Some(domain.store())
    }

    fn plain(&self, number: u8, k: u32) -> Option<&Plain> {
        let domain = self.quiet.domain(number)?;
        plain_of(domain.plains(), k as usize)
    }
}

/// The plain array of a number, if there is one.
fn plain_of(plains: &[Plain], k: usize) -> Option<&Plain>
    ensures { option_copied result ≡ slice_get plains.now k }
{
    plains.get(k)
}

/// Whether a call is marked in a pass; not where the task has no such call.
fn is_marked(pass: &Pass<Act<'_>>, call: u32) -> bool
    ensures { result ≡ flag_at pass.now.it.marks call }
{
    match pass.marks().get(call as usize) {
        Some(mark) => *mark,
        None => false,
    }
}
