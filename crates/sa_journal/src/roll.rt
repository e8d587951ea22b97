//! Where the lines are kept.
ghost use Rattle.std.specs.Prelude.{◌≡◌, IfOk};
ghost use Rattle.boxcar.specs.Table.{Shows};

use crate::deed::Deed;
use crate::line::Line;
use boxcar::Pushed;
use sa_base::Memory;
use std::alloc::Global;
use std::marker::Model;
use std::sync::{Arc, Wait};

/// What shows that a roll has a line at a key. A key names one line for good.
pub(crate) type Token<D> = Pushed<Line<D>>;

/// The lines of one run. Each line has a key, and a key names the same line for good.
#[derive(Drop)]
pub struct Roll<D: Deed> {
    lines: Arc<boxcar::Vec<Line<D>>, Global>,
}

impl<D: Deed> Model for Roll<D> {
    ghost use Rattle.std.specs.Arc.{arc_value};
    ghost use Rattle.boxcar.specs.Table.{Shelves};

    ghost Value = { Shelves };

    ghost view = { λ r. arc_value r.lines };
}

impl<D: Deed> Roll<D> {
    /// An empty roll.
    pub fn new(alloc: Global) -> Result<Roll<D>, Memory> {
        let lines = boxcar::Vec::new(alloc)?;
        Ok(Roll {
            lines: Arc::new(alloc, lines)?,
        })
    }

    /// The same roll.
    pub(crate) fn again(&self) -> Result<Roll<D>, Memory>
        ensures { IfOk result (λ roll. roll ≡ self.now) }
    {
        Ok(Roll {
            lines: Arc::try_clone(&self.lines)?,
        })
    }

    /// Keeps a line.
    pub(crate) fn push<W: Wait>(&self, rt: &W, line: Line<D>) -> Result<Token<D>, Memory>
        ensures { IfOk result (λ token. Shows self.now token × (token.value ≡ line)) }
    {
        match self.lines.push_shown(rt, line) {
            Ok(token) => Ok(token),
            Err(_line) => Err(Memory),
        }
    }

    /// The line that a token stands for.
    pub(crate) fn line(&self, token: &Token<D>) -> &Line<D>
        requires { Shows self.now token.now }
        ensures { result.now ≡ token.now.value }
    {
        self.lines.value(token)
    }

    /// Two tokens of one key stand for one line.
    pub(crate) fn agrees(&self, a: &Token<D>, b: &Token<D>)
        requires of { Shows self.now a.now × Shows self.now b.now }
        requires key { a.now.index ≡ b.now.index }
        ensures { a.now.value ≡ b.now.value }
    {
        self.lines.agrees(a, b);
    }
}
