//! An act as a deed of the journal.
use crate::act::Act;
use sa_journal::{Deed, Locks};

impl<'s> Deed for Act<'s> {
    ghost use Rattle.sa_loop.specs.Acts.{act_said};

    ghost said = { act_said };

    fn task(&self) -> u32 {
        Act::task(self)
    }

    fn call(&self) -> u32 {
        Act::call(self)
    }

    fn locks(&self) -> &Locks {
        Act::locks(self)
    }
}
