//! What a line of the journal says.
ghost use Rattle.std.specs.Prelude.{◌≡◌};

use crate::locks::Locks;

/// What a call did. Its meaning is plain data, of which its task, its call's number and its locks can be
/// read. Its parties are the descriptors of its locks, and its task.
pub trait Deed: Drop + Send + Sync {
    ghost use Rattle.sa_journal.specs.Said.{Said};

    ghost said: { Self → Said };

    /// The number of its task.
    fn task(&self) -> u32
        ensures { result ≡ (said self.now).task };

    /// The number of its call, among those of its task.
    fn call(&self) -> u32
        ensures { result ≡ (said self.now).call };

    /// The descriptors whose locks it has.
    fn locks(&self) -> &Locks
        ensures { result.now ≡ (said self.now).locks };
}
