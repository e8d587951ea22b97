ghost use Rattle.std.specs.Prelude.{◌≡◌, filter};
ghost use Rattle.sa_call.specs.Told.{homes_of};
ghost use Rattle.sa_call.specs.Valid.{IsCall};

use crate::places::is_named;
use sa_call::{Call, Decls};
use sa_journal::Locks;

/// The descriptors that a call is on, in rising order, each once: those of its views, of its output, and
/// the one whose statistics or picture it asks for.
pub fn homes(decls: &Decls, call: &Call) -> Locks
    requires { IsCall decls.now call.now }
    ensures { result ≡ homes_of decls.now call.now }
{
    let _declared = decls.arrays();
    let count = decls.descrs().len();
    let mut homes = Locks::none();
    for number in 0..count {
        if is_named(decls, call, number as u8) {
            homes.add(number as u8);
        }
    }
    homes
}
