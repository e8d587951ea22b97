ghost use Rattle.sa_text.specs.Making.{made, GivesText};
ghost use Rattle.sa_edit.specs.Joins.{add, multiply};

use crate::padding::at_least_zero;
use sa_text::{EditError, Text, TextBuilder};
use std::alloc::Global;

/// The first text, then the second, as `+` of Python's `str`. `TooLong` where that has more than 65,536
/// bytes.
pub fn add(alloc: Global, a: &Text, b: &Text) -> Result<Text, EditError>
    ensures { GivesText result (made (add a.now b.now)) }
{
    let mut text = TextBuilder::new(alloc, a.size() + b.size())?;
    text.push(a.as_bytes());
    text.push(b.as_bytes());
    text.finish()
}

/// The text `n` times, as `*` of Python's `str`: the empty text where `n` is below 1. `TooLong` where that
/// has more than 65,536 bytes.
pub fn multiply(alloc: Global, a: &Text, n: i64) -> Result<Text, EditError>
    ensures { GivesText result (made (multiply a.now n)) }
{
    let times = at_least_zero(n);
    let mut text = TextBuilder::new(alloc, times.saturating_mul(a.size()))?;
    text.repeat(a.as_bytes(), times);
    text.finish()
}
