ghost use Rattle.std.specs.Prelude.{◌≡◌, ◌<◌, ℕ, length, slice_get, option_map, IfSome};
ghost use Rattle.std.specs.Option.{option_copied};
ghost use Rattle.sa_loop.specs.Held.{IsPlay};
ghost use Rattle.sa_loop.specs.Gathers.{act_pair, act_reply, plain_in, store_at, layout_of};
ghost use Rattle.sa_loop.specs.States.{lengths_of};

use crate::act::Act;
use sa_alloc::Store;
use sa_plain::Plain;

/// What a run did: the acts of its history in order, its marks, and the stores and plain arrays
/// that the history leaves. The acts' replies are those of the play of their calls from the opening world
/// of the declarations, and the stores and plain arrays show the world that the play leaves.
pub trait Gathered {
    ghost use Rattle.std.specs.Prelude.{ℕ, Bool, List};
    ghost use Rattle.sa_call.specs.Decls.{Declared};
    ghost use Rattle.sa_call.specs.declared.call.Call.{Call};
    ghost use Rattle.sa_call.specs.declared.reply.Reply.{Reply};
    ghost use Rattle.sa_hall.specs.Contents.{Contents};

    /// The declarations.
    ghost declared: { Self → Declared };

    /// The history: a task and a call's number there, in order.
    ghost pairs: { Self → List (ℕ × ℕ) };

    /// The calls of the history, in order.
    ghost bodies: { Self → List Call };

    /// Their replies.
    ghost replies: { Self → List Reply };

    /// The marked calls.
    ghost marks: { Self → ℕ → ℕ → Bool };

    /// What each descriptor holds.
    ghost holds: { Self → ℕ → Contents };

    /// How many acts there are.
    fn count(&self) -> u64
        ensures count { result ≡ length (pairs self.now) }
        ensures replied { length (replies self.now) ≡ length (pairs self.now) }
        ensures played { IsPlay (declared self.now) (holds self.now) (bodies self.now) (replies self.now) };

    /// The act at a place of the history.
    fn act(&self, k: u64) -> Option<&Act<'_>>
        ensures pair { option_map (λ a. act_pair a.now) result ≡ slice_get (pairs self.now) k }
        ensures reply { option_map (λ a. act_reply a.now) result ≡ slice_get (replies self.now) k };

    /// Whether a call of a task is marked: there was no memory for it.
    fn marked(&self, task: u32, call: u32) -> bool
        ensures { result ≡ marks self.now task call };

    /// The store of a descriptor; none where there is no such descriptor.
    fn store(&self, number: u8) -> Option<&Store>
        ensures store { option_map (λ s. layout_of s.now) result ≡ store_at (length (declared self.now).descrs) (holds self.now) number }
        ensures shape { IfSome result (λ s. s.now.contents.layout.lengths ≡ lengths_of (declared self.now) number) };

    /// The plain array of a number among those of a descriptor; none where there is no such descriptor or no
    /// such array.
    fn plain(&self, number: u8, k: u32) -> Option<&Plain>
        ensures { option_copied result ≡ plain_in (length (declared self.now).descrs) (holds self.now) number k };
}
