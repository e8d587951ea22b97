//! A journal to which no line comes any more.
ghost use Rattle.std.specs.Prelude.{◌≡◌, length, slice_get, IfSome};
ghost use Rattle.std.specs.Option.{option_copied, option_map};
ghost use Rattle.sa_journal.specs.Parties.{IsParty, NamesParties};
ghost use Rattle.sa_journal.specs.Chains.{keys_of, chain_of};
ghost use Rattle.sa_journal.specs.Journals.{IsOf, AreNumbered, NameParties};

use crate::binding::Binding;
use crate::chain::Chain;
use crate::deed::Deed;
use crate::line::Line;
use crate::lines::Lines;
use crate::roll::{Roll, Token};
use sa_tie::Near;
use std::marker::Model;

/// The lines of a journal that has ended. They are lines of its roll, numbered from 0 in order, and the
/// parties of each are parties of the journal. Contracts see the roll, the ties of the parties, how many
/// descriptors and tasks there are, and the lines.
#[derive(Drop)]
pub struct Ended<D: Deed> {
    roll: Roll<D>,
    tokens: Vec<Token<D>>,
    nears: Vec<Near>,
    descrs: u8,
    tasks: u32,
}

impl<D: Deed> Model for Ended<D> {
    ghost use Rattle.std.specs.Prelude.{map};
    ghost use Rattle.sa_journal.specs.declared.line.Line.{Line};
    ghost use Rattle.sa_journal.specs.Chains.{keyed};
    ghost use Rattle.sa_journal.specs.Journals.{Settled, AreLines, AreTied, nothing_more};

    ghost Value = { Settled D };

    ghost view = { λ e. record {
      roll = e.roll;
      ties = map (λ n. n.tie) e.nears.items;
      descrs = e.descrs;
      tasks = e.tasks;
      lines = keyed e.tokens.items;
    } };

    ghost invariant = { λ e. AreLines D.said e.roll e.descrs e.tasks e.tokens.items × AreTied D.said e.descrs e.tasks (map (λ n. n.tie) e.nears.items) (keyed e.tokens.items) nothing_more e.nears.items };
}

impl<D: Deed> Ended<D> {
    /// The lines that lay under a journal's lock.
    pub(crate) fn new<B: Binding>(
        roll: Roll<D>,
        lines: Lines<D, B>,
        descrs: u8,
        tasks: u32,
    ) -> Ended<D>
        requires roll { roll ≡ B.roll }
        requires descrs { descrs ≡ length B.shapes }
        requires tasks { tasks ≡ B.tasks }
        ensures bound { (result.roll ≡ B.roll) × (result.ties ≡ B.ties) × (result.descrs ≡ length B.shapes) × (result.tasks ≡ B.tasks) }
        ensures lines { result.lines ≡ lines.lines }
        ensures numbered { AreNumbered result.lines }
        ensures parties { NameParties D.said result.descrs result.tasks result.lines }
    {
        let Lines {
            tokens,
            nears,
            of: _,
        } = lines;
        Ended {
            roll,
            tokens,
            nears,
            descrs,
            tasks,
        }
    }

    /// How many lines there are.
    pub fn count(&self) -> u64
        ensures { result ≡ length self.now.lines }
    {
        self.tokens.len() as u64
    }

    /// The line with number `k`, whose parties are parties of the journal; none exactly at and past the
    /// count.
    #[tactic(auto, using(crate::proofs::TieLemmas::number_at))]
    pub fn line(&self, k: u64) -> Option<&Line<D>>
        ensures line { option_copied result ≡ option_map (λ l. l.1) (slice_get self.now.lines k) }
        ensures number { IfSome result (λ l. l.now.number ≡ k) }
        ensures parties { IfSome result (λ l. NamesParties self.now.descrs self.now.tasks (D.said l.now.deed)) }
    {
        let token = self.tokens.get(k as usize)?;
        Some(self.roll.line(token))
    }

    /// The key of the line with number `k`; none exactly at and past the count.
    pub fn key(&self, k: u64) -> Option<u64>
        ensures { result ≡ option_map (λ l. l.0) (slice_get self.now.lines k) }
    {
        let token = self.tokens.get(k as usize)?;
        Some(token.index() as u64)
    }

    /// Tells that the chain is the journal's lines that name its party, in order. It changes nothing,
    /// takes no memory and cannot be refused.
    pub fn compare(&mut self, chain: &mut Chain<D>)
        requires of { IsOf self.old.roll self.old.ties self.old.descrs chain.old.it }
        requires party { IsParty self.old.descrs self.old.tasks chain.old.it.party }
        ensures whole { chain.new.it.lines ≡ chain_of D.said chain.new.it.party self.new.lines }
        ensures same { (self.new ≡ self.old) × (chain.new ≡ chain.old) }
    {
        let near = &mut self.nears[chain.party().seat(self.descrs)];
        chain.meet(near);
        self.walk(chain);
    }

    // Goes along the journal and the chain, whose keys are those of the journal's lines that name its
    // party: at one key is one line.
    fn walk(&self, chain: &Chain<D>)
        requires roll { chain.now.it.roll ≡ self.now.roll }
        requires keys { keys_of chain.now.it.lines ≡ keys_of (chain_of D.said chain.now.it.party self.now.lines) }
        ensures { chain.now.it.lines ≡ chain_of D.said chain.now.it.party self.now.lines }
    {
        let party = chain.party();
        let mut at = 0;
        for token in &self.tokens {
            if party.is_named(&self.roll.line(token).deed) {
                chain.agrees(at, token);
                at += 1;
            }
        }
    }
}
