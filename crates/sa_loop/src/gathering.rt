ghost use Rattle.std.specs.Prelude.{◌≡◌, length, map, false, slice_get};
ghost use Rattle.std.specs.Option.{option_copied};
ghost use Rattle.sa_loop.specs.declared.act.Act.{Act};
ghost use Rattle.sa_loop.specs.Gathers.{act_pair, act_reply};
ghost use Rattle.sa_loop.specs.Runs.{holds_in};

use crate::act::Act;
use crate::gathered::Gathered;
use crate::listed::Listed;
use sa_alloc::Store;
use sa_plain::Plain;

impl<'s> Gathered for Listed<'s> {
    ghost declared = { λ l. l.decls.now };

    ghost pairs = { λ l. map act_pair l.acts.items };

    ghost bodies = { λ l. map (λ (a : Act). a.body.now) l.acts.items };

    ghost replies = { λ l. map act_reply l.acts.items };

    ghost marks = { λ l task call. false };

    ghost holds = { λ l. holds_in l.rooms.items };

    fn count(&self) -> u64 {
        self.acts.len() as u64
    }

    fn act(&self, k: u64) -> Option<&Act<'_>> {
        self.acts.get(k as usize)
    }

    fn marked(&self, _task: u32, _call: u32) -> bool {
        false
    }

    fn store(&self, number: u8) -> Option<&Store> {
        match element_at(self.rooms.as_slice(), number as usize) {
            Some(room) => Some(&room.store),
            None => None,
        }
    }

    fn plain(&self, number: u8, k: u32) -> Option<&Plain> {
        match element_at(self.rooms.as_slice(), number as usize) {
            Some(room) => element_at(room.plains.as_slice(), k as usize),
            None => None,
        }
    }
}

/// The element of a number, if there is one.
fn element_at<T>(elements: &[T], number: usize) -> Option<&T>
    ensures { option_copied result ≡ slice_get elements.now number }
{
    elements.get(number)
}
