//! What one descriptor holds, lent.
ghost use Rattle.std.specs.Prelude.{◌≡◌};
ghost use Rattle.sa_hall.specs.Changes.{contents_of};

use sa_alloc::Store;
use sa_plain::Plain;
use std::marker::Model;

/// The store and the plain arrays of a descriptor. Contracts see what they hold.
#[derive(Drop)]
pub(crate) struct Lending<'h> {
    store: &'h Store,
    plains: &'h [Plain],
}

impl<'h> Model for Lending<'h> {
    ghost use Rattle.sa_hall.specs.Contents.{Contents};
    ghost use Rattle.sa_hall.specs.Changes.{contents_of};

    ghost Value = { Contents };

    ghost view = { λ l. contents_of l.store.now l.plains.now };
}

impl<'h> Lending<'h> {
    pub(crate) fn new(store: &'h Store, plains: &'h [Plain]) -> Lending<'h>
        ensures { result ≡ contents_of store.now plains.now }
    {
        Lending { store, plains }
    }

    pub(crate) fn store(&self) -> &Store
        ensures { result.now.contents.layout ≡ self.now.layout }
    {
        self.store
    }

    pub(crate) fn plains(&self) -> &[Plain]
        ensures { result.now ≡ self.now.plains }
    {
        self.plains
    }
}
