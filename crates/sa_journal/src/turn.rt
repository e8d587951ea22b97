//! A line that is being written.
ghost use Rattle.std.specs.Prelude.{◌≡◌, ◌<◌, ◌-◌, [], true, false, length, set, slice_index_or};
ghost use Rattle.boxcar.specs.Table.{Shows};
ghost use Rattle.sa_journal.specs.Parties.{IsParty, NamesParties, names, debt_of, owed_by, owed_to_none};
ghost use Rattle.sa_journal.specs.Chains.{keys_of, chain_of, with_line};
ghost use Rattle.sa_journal.specs.Journals.{IsOf};

use crate::binding::Binding;
use crate::chain::Chain;
use crate::deed::Deed;
use crate::lines::Lines;
use crate::party::DEBTS;
use crate::roll::Token;
use sa_tie::Near;
use std::marker::{Model, PhantomData};
use std::sync::MutexGuard;

/// The right to add one line to the journal, whose lock it has. A turn must be closed. From when it is
/// open nothing takes memory and nothing can fail. Contracts see the journal's lines before it, its own
/// line, and to which parties that is still owed.
pub struct Turn<'a, D: Deed, B: Binding> {
    guard: MutexGuard<'a, Option<Lines<D, B>>>,
    tokens: Vec<Token<D>>,
    nears: Vec<Near>,
    descrs: u8,
    token: Token<D>,
    owed: [bool; DEBTS],
}

impl<'a, D: Deed, B: Binding> Model for Turn<'a, D, B> {
    ghost use Rattle.std.specs.Prelude.{◌≡◌, ◌-◌, length, vec_len, vec_capacity};
    ghost use Rattle.sa_journal.specs.declared.line.Line.{Line};
    ghost use Rattle.sa_journal.specs.Chains.{keyed};
    ghost use Rattle.sa_journal.specs.Journals.{Opened, IsTurn};

    ghost Value = { Opened D };

    ghost view = { λ t. record {
      lines = keyed t.tokens.items;
      line = (t.token.index, t.token.value);
      owed = t.owed;
    } };

    ghost invariant = { λ t. (t.descrs ≡ length B.shapes) × IsTurn D.said B.roll (length B.shapes) B.tasks B.ties t.tokens.items (vec_capacity t.tokens - vec_len t.tokens) t.token t.owed t.nears.items };
}

impl<'a, D: Deed, B: Binding> Turn<'a, D, B> {
    /// Opens a turn for the line of a token.
    pub(crate) fn new(
        guard: MutexGuard<'a, Option<Lines<D, B>>>,
        lines: Lines<D, B>,
        descrs: u8,
        token: Token<D>,
        owed: [bool; DEBTS],
    ) -> Turn<'a, D, B>
        requires descrs { descrs ≡ length B.shapes }
        requires room { 0 < lines.room }
        requires shown { Shows B.roll token }
        requires next { token.value.number ≡ length lines.lines }
        requires parties { NamesParties (length B.shapes) B.tasks (D.said token.value.deed) }
        requires owed { owed ≡ owed_by (D.said token.value.deed) }
        ensures lines { result.lines ≡ lines.lines }
        ensures line { result.line ≡ (token.index, token.value) }
        ensures owed { result.owed ≡ owed_by (D.said token.value.deed) }
    {
        let Lines {
            tokens,
            nears,
            of: _,
        } = lines;
        Turn {
            guard,
            tokens,
            nears,
            descrs,
            token,
            owed,
        }
    }

    /// The turn's line becomes the chain's last. It tells that the chain was the journal's lines that name
    /// its party, key for key. It takes no memory and cannot be refused.
    pub fn link(&mut self, chain: &mut Chain<D>)
        requires of { IsOf B.roll B.ties (length B.shapes) chain.old.it }
        requires named { names (D.said self.old.line.1.deed) chain.old.it.party ≡ true }
        requires owed { slice_index_or self.old.owed (debt_of chain.old.it.party) false ≡ true }
        requires room { 0 < chain.old.room }
        ensures before { keys_of chain.old.it.lines ≡ keys_of (chain_of D.said chain.old.it.party self.old.lines) }
        ensures chain { chain.new.it ≡ with_line chain.old.it self.old.line }
        ensures room { chain.new.room ≡ chain.old.room - 1 }
        ensures line { (self.new.lines ≡ self.old.lines) × (self.new.line ≡ self.old.line) }
        ensures paid { self.new.owed ≡ set self.old.owed (debt_of chain.old.it.party) false }
    {
        let party = chain.party();
        let near = &mut self.nears[party.seat(self.descrs)];
        chain.push(&self.token, near);
        self.owed[party.debt()] = false;
    }

    /// Tells that a chain that the turn has not linked is the journal's lines that name its party, key for
    /// key. It changes nothing, takes no memory and cannot be refused.
    pub fn compare(&mut self, chain: &mut Chain<D>)
        requires of { IsOf B.roll B.ties (length B.shapes) chain.old.it }
        requires party { IsParty (length B.shapes) B.tasks chain.old.it.party }
        requires owed { names (D.said self.old.line.1.deed) chain.old.it.party ≡ true → slice_index_or self.old.owed (debt_of chain.old.it.party) false ≡ true }
        ensures keys { keys_of chain.new.it.lines ≡ keys_of (chain_of D.said chain.new.it.party self.new.lines) }
        ensures same { (self.new ≡ self.old) × (chain.new ≡ chain.old) }
    {
        let near = &mut self.nears[chain.party().seat(self.descrs)];
        chain.meet(near);
    }

    /// The turn's line becomes the journal's last, and the lock is free. Answers the line's number.
    pub fn close(self) -> u64
        requires { self.owed ≡ owed_to_none }
        ensures { result ≡ self.entry.line.1.number }
    {
        let Turn {
            mut guard,
            mut tokens,
            nears,
            descrs: _,
            token,
            owed: _,
        } = self;
        let number = tokens.len() as u64;
        tokens.push_reserved(token);
        let lines = Lines {
            tokens,
            nears,
            of: PhantomData,
        };
        *guard = Some(lines);
        number
    }
}
