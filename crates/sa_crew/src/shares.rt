//! Cutting things into the shares of one worker and of the others, and putting them together again.
ghost use Rattle.std.specs.Prelude.{◌≡◌, ◌+◌, length, IfOk};
ghost use Rattle.sa_crew.specs.Shares.{firsts, others, firsts_in};

use sa_base::Memory;
use std::alloc::Global;

/// Cuts things in two: the first of each `skip + 1`, and the others, each in order.
pub(crate) fn cut<P: Drop>(
    alloc: Global,
    things: Vec<P>,
    skip: usize,
) -> Result<(Vec<P>, Vec<P>), Memory>
    ensures firsts { IfOk result (λ r. r.0.items ≡ firsts skip 0 things.items) }
    ensures others { IfOk result (λ r. r.1.items ≡ others skip 0 things.items) }
{
    let mut mine = Vec::new(alloc);
    let mut rest = Vec::new(alloc);
    let mut turn = 0usize;
    for thing in things {
        if turn == 0 {
            mine.push(thing)?;
            turn = skip;
        } else {
            rest.push(thing)?;
            turn -= 1;
        }
    }
    Ok((mine, rest))
}

/// Puts things together that were cut in two.
pub(crate) fn woven<P: Drop>(
    alloc: Global,
    mine: Vec<P>,
    rest: Vec<P>,
    skip: usize,
) -> Result<Vec<P>, Memory>
    requires { firsts_in skip 0 (length mine.items + length rest.items) ≡ length mine.items }
    ensures firsts { IfOk result (λ r. firsts skip 0 r.items ≡ mine.items) }
    ensures others { IfOk result (λ r. others skip 0 r.items ≡ rest.items) }
    ensures many { IfOk result (λ r. length r.items ≡ length mine.items + length rest.items) }
{
    let count = mine.len() + rest.len();
    let mut mine = mine.into_iter();
    let mut rest = rest.into_iter();
    let mut all = Vec::with_capacity(alloc, count)?;
    let mut before = 0usize;
    for _k in 0..count {
        if before == 0 {
            let Some(thing) = mine.next() else {
                unreachable!()
            };
            all.push(thing)?;
            before = skip;
        } else {
            let Some(thing) = rest.next() else {
                unreachable!()
            };
            all.push(thing)?;
            before -= 1;
        }
    }
    Ok(all)
}
