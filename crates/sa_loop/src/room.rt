ghost use Rattle.std.specs.Prelude.{◌≡◌, length, nat_lt};
ghost use Rattle.sa_loop.specs.Runs.{holds_in};

use crate::rooms::Rooms;
use sa_alloc::Store;
use sa_plain::Plain;

/// What a descriptor holds in a run on one thread: the store of its strings arrays, and its plain arrays in
/// order of declaration.
#[derive(Drop)]
pub struct Room {
    pub store: Store,
    pub plains: Vec<Plain>,
}

impl Rooms for Vec<Room> {
    ghost has = { λ rooms d. nat_lt d (length rooms.items) };

    ghost holds = { λ rooms. holds_in rooms.items };

    fn store(&self, number: u8) -> &Store {
        &self[number as usize].store
    }

    fn plains(&self, number: u8) -> &[Plain] {
        self[number as usize].plains.as_slice()
    }
}
