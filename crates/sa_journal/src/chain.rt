//! The lines of one party.
ghost use Rattle.std.specs.Prelude.{◌≡◌, ◌<◌, ◌≤◌, ◌-◌, ◌++◌, ◌∷◌, [], true, length, slice_get, IfOk, IfSome, OnOk};
ghost use Rattle.std.specs.Option.{option_copied, option_map};
ghost use Rattle.boxcar.specs.Table.{Shows};
ghost use Rattle.sa_journal.specs.Parties.{names};
ghost use Rattle.sa_journal.specs.Chains.{keys_of, with_line};

use crate::deed::Deed;
use crate::line::Line;
use crate::party::Party;
use crate::roll::{Roll, Token};
use sa_base::{Memory, Sequence};
use sa_tie::{Far, Near, meet, pull};
use std::alloc::Global;
use std::marker::Model;

/// The lines that name one party, in order, as far as they were linked to it. Each is a line of the
/// chain's roll and names the chain's party. Contracts see this (`it`), and how many lines it takes
/// without memory (`room`).
#[derive(Drop)]
pub struct Chain<D: Deed> {
    roll: Roll<D>,
    party: Party,
    tokens: Vec<Token<D>>,
    far: Far,
}

/// Chains, in order.
pub type ChainList<D> = Sequence<Chain<D>>;

impl<D: Deed> Model for Chain<D> {
    ghost use Rattle.std.specs.Prelude.{◌-◌, vec_len, vec_capacity};
    ghost use Rattle.sa_journal.specs.declared.line.Line.{Line};
    ghost use Rattle.sa_journal.specs.Chains.{Roomy, IsChain, keyed};

    ghost Value = { Roomy D };

    ghost view = { λ c. record {
      it = record {
        roll = c.roll;
        party = c.party;
        tie = c.far.tie;
        lines = keyed c.tokens.items;
      };
      room = vec_capacity c.tokens - vec_len c.tokens;
    } };

    ghost invariant = { λ c. IsChain D.said c.roll c.party c.tokens.items c.far.keys };
}

impl<D: Deed> Chain<D> {
    /// An empty chain of a party, at a far end with no key.
    pub(crate) fn new(alloc: Global, roll: Roll<D>, party: Party, far: Far) -> Chain<D>
        requires { far.keys ≡ [] }
        ensures { result.it ≡ record { roll = roll; party = party; tie = far.tie; lines = [] } }
    {
        Chain {
            roll,
            party,
            tokens: Vec::new(alloc),
            far,
        }
    }

    /// Makes room for one more line. Its lines stay, whatever the answer.
    pub fn reserve(&mut self) -> Result<(), Memory>
        ensures same { self.new.it ≡ self.old.it }
        ensures room { OnOk result (0 < self.new.room) }
        ensures grown { self.old.room ≤ self.new.room }
    {
        self.tokens.reserve(1)?;
        Ok(())
    }

    /// How many lines it has.
    pub fn count(&self) -> u64
        ensures { result ≡ length self.now.it.lines }
    {
        self.tokens.len() as u64
    }

    /// The line at place `k`, from 0, which names the chain's party; none exactly at and past the count.
    pub fn line(&self, k: u64) -> Option<&Line<D>>
        ensures line { option_copied result ≡ option_map (λ l. l.1) (slice_get self.now.it.lines k) }
        ensures named { IfSome result (λ l. names (D.said l.now.deed) self.now.it.party ≡ true) }
    {
        let token = self.tokens.get(k as usize)?;
        Some(self.roll.line(token))
    }

    /// The key of the line at place `k`, from 0; none exactly at and past the count.
    pub fn key(&self, k: u64) -> Option<u64>
        ensures { result ≡ option_map (λ l. l.0) (slice_get self.now.it.lines k) }
    {
        let token = self.tokens.get(k as usize)?;
        Some(token.index() as u64)
    }

    /// Whose chain it is.
    pub fn party(&self) -> Party
        ensures { result ≡ self.now.it.party }
    {
        self.party
    }

    /// The line of a token becomes the last, at the chain's tie too, whose ends had the same keys.
    pub(crate) fn push(&mut self, token: &Token<D>, near: &mut Near)
        requires shown { Shows self.old.it.roll token.now }
        requires named { names (D.said token.now.value.deed) self.old.it.party ≡ true }
        requires room { 0 < self.old.room }
        requires tie { near.old.tie ≡ self.old.it.tie }
        ensures before { near.old.keys ≡ keys_of self.old.it.lines }
        ensures chain { self.new.it ≡ with_line self.old.it (token.now.index, token.now.value) }
        ensures room { self.new.room ≡ self.old.room - 1 }
        ensures near { (near.new.tie ≡ near.old.tie) × (near.new.keys ≡ near.old.keys ++ token.now.index ∷ []) }
    {
        pull(near, &mut self.far, token.index() as u64);
        self.tokens.push_reserved(token.again());
    }

    /// Tells that the ends of the chain's tie have the keys of its lines, and leaves all as it is.
    pub(crate) fn meet(&mut self, near: &mut Near)
        requires tie { near.old.tie ≡ self.old.it.tie }
        ensures keys { near.old.keys ≡ keys_of self.old.it.lines }
        ensures same { (near.new ≡ near.old) × (self.new ≡ self.old) }
    {
        meet(near, &mut self.far);
    }

    /// The line at a place is that of a token with its key.
    pub(crate) fn agrees(&self, at: usize, token: &Token<D>)
        requires shown { Shows self.now.it.roll token.now }
        requires key { option_map (λ l. l.0) (slice_get self.now.it.lines at) ≡ Some token.now.index }
        ensures { slice_get self.now.it.lines at ≡ Some (token.now.index, token.now.value) }
    {
        self.roll.agrees(&self.tokens[at], token);
    }
}
