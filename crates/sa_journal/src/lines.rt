//! What lies under a journal's lock.
ghost use Rattle.std.specs.Prelude.{◌≡◌, ◌<◌, length, IfOk, OnOk};
ghost use Rattle.boxcar.specs.Table.{Shows};
ghost use Rattle.sa_journal.specs.Parties.{NamesParties};

use crate::binding::Binding;
use crate::deed::Deed;
use crate::line::Line;
use crate::roll::{Roll, Token};
use sa_base::Memory;
use sa_tie::Near;
use std::marker::{Model, PhantomData};
use std::sync::Wait;

/// The journal's lines, and the near end of each party's tie. Contracts see the lines, and how many more
/// it takes without memory.
#[derive(Drop)]
pub(crate) struct Lines<D: Deed, B: Binding> {
    pub(crate) tokens: Vec<Token<D>>,
    pub(crate) nears: Vec<Near>,
    pub(crate) of: PhantomData<B>,
}

impl<D: Deed, B: Binding> Model for Lines<D, B> {
    ghost use Rattle.std.specs.Prelude.{◌-◌, length, vec_len, vec_capacity};
    ghost use Rattle.sa_journal.specs.declared.line.Line.{Line};
    ghost use Rattle.sa_journal.specs.Chains.{keyed};
    ghost use Rattle.sa_journal.specs.Journals.{Written, AreLines, AreTied, nothing_more};

    ghost Value = { Written D };

    ghost view = { λ l. record {
      lines = keyed l.tokens.items;
      room = vec_capacity l.tokens - vec_len l.tokens;
    } };

    ghost invariant = { λ l. AreLines D.said B.roll (length B.shapes) B.tasks l.tokens.items × AreTied D.said (length B.shapes) B.tasks B.ties (keyed l.tokens.items) nothing_more l.nears.items };
}

impl<D: Deed, B: Binding> Lines<D, B> {
    /// Makes room for one more line, and writes it into the roll.
    pub(crate) fn write<W: Wait>(
        &mut self,
        rt: &W,
        roll: &Roll<D>,
        deed: D,
    ) -> Result<Token<D>, Memory>
        requires { roll.now ≡ B.roll }
        ensures same { self.new.lines ≡ self.old.lines }
        ensures room { OnOk result (0 < self.new.room) }
        ensures token { IfOk result (λ t. Shows B.roll t × (t.value.deed ≡ deed) × (t.value.number ≡ length self.old.lines)) }
    {
        self.tokens.reserve(1)?;
        let number = self.tokens.len() as u64;
        roll.push(rt, Line { number, deed })
    }
}
