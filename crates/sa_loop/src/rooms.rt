ghost use Rattle.std.specs.Prelude.{◌≡◌, ℕ, Bool, true};
ghost use Rattle.sa_hall.specs.Contents.{Contents};

use sa_alloc::Store;
use sa_plain::Plain;

/// Where the stores and the plain arrays of descriptors are held. What is read of them, and how it is
/// weighed, is written once for all that hold some.
pub trait Rooms {
    /// Whether what a descriptor has is held.
    ghost has: { Self → ℕ → Bool };

    /// What a descriptor has.
    ghost holds: { Self → ℕ → Contents };

    /// The store of a descriptor's strings arrays.
    fn store(&self, number: u8) -> &Store
        requires { has self.now number ≡ true }
        ensures { result.now.contents.layout ≡ (holds self.now number).layout };

    /// The plain arrays of a descriptor, in order of declaration.
    fn plains(&self, number: u8) -> &[Plain]
        requires { has self.now number ≡ true }
        ensures { result.now ≡ (holds self.now number).plains };
}
