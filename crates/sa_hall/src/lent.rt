//! What held descriptors hold, lent.
ghost use Rattle.std.specs.Prelude.{◌≡◌, true, Some};
ghost use Rattle.sa_hall.specs.Holds.{held_at, is_held, lent_at};

use crate::lending::Lending;
use sa_alloc::Store;
use sa_plain::Plain;
use std::marker::Model;

/// The stores and plain arrays of held descriptors, without their locks. Contracts see what each holds, by
/// its number.
#[derive(Drop)]
pub struct Lent<'h> {
    pub(crate) s0: Option<Lending<'h>>,
    pub(crate) s1: Option<Lending<'h>>,
    pub(crate) s2: Option<Lending<'h>>,
    pub(crate) s3: Option<Lending<'h>>,
    pub(crate) s4: Option<Lending<'h>>,
    pub(crate) s5: Option<Lending<'h>>,
    pub(crate) s6: Option<Lending<'h>>,
    pub(crate) s7: Option<Lending<'h>>,
}

impl<'h> Model for Lent<'h> {
    ghost use Rattle.std.specs.Prelude.{◌∷◌, [], List};
    ghost use Rattle.std.specs.declared.option.Option.{Option};
    ghost use Rattle.sa_hall.specs.Contents.{Contents};

    ghost Value = { List (Option Contents) };

    ghost view = { λ l. l.s0 ∷ l.s1 ∷ l.s2 ∷ l.s3 ∷ l.s4 ∷ l.s5 ∷ l.s6 ∷ l.s7 ∷ [] };
}

impl<'h> Lent<'h> {
    /// The store of a held descriptor.
    pub fn store(&self, number: u8) -> &Store
        requires { is_held (held_at self.now number) ≡ true }
        ensures { result.now.contents.layout ≡ (lent_at self.now number).layout }
    {
        self.at(number).store()
    }

    /// The plain arrays of a held descriptor, in order of declaration.
    pub fn plains(&self, number: u8) -> &[Plain]
        requires { is_held (held_at self.now number) ≡ true }
        ensures { result.now ≡ (lent_at self.now number).plains }
    {
        self.at(number).plains()
    }

    fn at(&self, number: u8) -> &Lending<'h>
        requires { is_held (held_at self.now number) ≡ true }
        ensures { held_at self.now number ≡ Some result.now }
    {
        match number {
            0 => given(&self.s0),
            1 => given(&self.s1),
            2 => given(&self.s2),
            3 => given(&self.s3),
            4 => given(&self.s4),
            5 => given(&self.s5),
            6 => given(&self.s6),
            7 => given(&self.s7),
            _ => unreachable!(),
        }
    }
}

// What is lent of one descriptor, if that is held.
fn given<'s, 'h>(lent: &'s Option<Lending<'h>>) -> &'s Lending<'h>
    requires { is_held lent.now ≡ true }
    ensures { lent.now ≡ Some result.now }
{
    match lent {
        Some(lent) => lent,
        None => unreachable!(),
    }
}
