//! The descriptors when no thread is at work.
ghost use Rattle.std.specs.Prelude.{ℕ, ◌≡◌, IfSome, Some};
ghost use Rattle.std.specs.Option.{option_map};
ghost use Rattle.sa_hall.specs.Halls.{AreOf, IsOfEnded, IsWhole};
ghost use Rattle.sa_hall.specs.Holds.{held_at, in_some, OfHeld};

use crate::domain::Domain;
use sa_journal::{Deed, Ended};
use std::marker::Model;

/// All descriptors, by number, under no lock. Contracts see what is kept of each.
#[derive(Drop)]
pub struct Quiet<D: Deed> {
    pub(crate) d0: Option<Domain<D>>,
    pub(crate) d1: Option<Domain<D>>,
    pub(crate) d2: Option<Domain<D>>,
    pub(crate) d3: Option<Domain<D>>,
    pub(crate) d4: Option<Domain<D>>,
    pub(crate) d5: Option<Domain<D>>,
    pub(crate) d6: Option<Domain<D>>,
    pub(crate) d7: Option<Domain<D>>,
}

impl<D: Deed> Model for Quiet<D> {
    ghost use Rattle.std.specs.Prelude.{◌∷◌, [], List};
    ghost use Rattle.std.specs.declared.option.Option.{Option};
    ghost use Rattle.sa_journal.specs.declared.line.Line.{Line};
    ghost use Rattle.sa_hall.specs.Domains.{Kept};
    ghost use Rattle.sa_hall.specs.Holds.{in_some};

    ghost Value = { List (Option (Kept D)) };

    ghost view = { λ q. in_some q.d0 (λ d. d.it) ∷ in_some q.d1 (λ d. d.it) ∷ in_some q.d2 (λ d. d.it) ∷ in_some q.d3 (λ d. d.it) ∷ in_some q.d4 (λ d. d.it) ∷ in_some q.d5 (λ d. d.it) ∷ in_some q.d6 (λ d. d.it) ∷ in_some q.d7 (λ d. d.it) ∷ [] };
}

impl<D: Deed> Quiet<D> {
    /// The descriptor of a number; none exactly where there is none.
    pub fn domain(&self, number: u8) -> Option<&Domain<D>>
        ensures { option_map (λ d. d.now.it) result ≡ held_at self.now number }
    {
        match number {
            0 => self.d0.as_ref(),
            1 => self.d1.as_ref(),
            2 => self.d2.as_ref(),
            3 => self.d3.as_ref(),
            4 => self.d4.as_ref(),
            5 => self.d5.as_ref(),
            6 => self.d6.as_ref(),
            7 => self.d7.as_ref(),
            _ => None,
        }
    }

    /// Tells of each descriptor that its chain is the ended journal's lines that name it, in order, and
    /// that what it holds is what these leave. It changes nothing and cannot be refused.
    pub fn compare(&mut self, ended: &mut Ended<D>)
        requires of { AreOf ended.old self.old }
        ensures same { (self.new ≡ self.old) × (ended.new ≡ ended.old) }
        ensures whole { (d : ℕ) (k : _) → held_at self.new d ≡ Some k → IsWhole D.said ended.new.lines k }
    {
        self.compare_each(ended);
    }

    fn compare_each(&mut self, ended: &mut Ended<D>)
        requires of { OfHeld (λ k. IsOfEnded ended.old k) self.old }
        ensures same { (self.new ≡ self.old) × (ended.new ≡ ended.old) }
        ensures whole { OfHeld (λ k. IsWhole D.said ended.new.lines k) self.new }
    {
        compare_one(&mut self.d0, ended);
        compare_one(&mut self.d1, ended);
        compare_one(&mut self.d2, ended);
        compare_one(&mut self.d3, ended);
        compare_one(&mut self.d4, ended);
        compare_one(&mut self.d5, ended);
        compare_one(&mut self.d6, ended);
        compare_one(&mut self.d7, ended);
    }
}

// The same of one descriptor, if there is one.
fn compare_one<D: Deed>(domain: &mut Option<Domain<D>>, ended: &mut Ended<D>)
    requires of { IfSome (in_some domain.old (λ d. d.it)) (λ k. IsOfEnded ended.old k) }
    ensures domain { in_some domain.new (λ d. d.it) ≡ in_some domain.old (λ d. d.it) }
    ensures ended { ended.new ≡ ended.old }
    ensures whole { IfSome (in_some domain.new (λ d. d.it)) (λ k. IsWhole D.said ended.new.lines k) }
{
    match domain {
        Some(domain) => domain.compare(ended),
        None => (),
    }
}
