ghost use Rattle.std.specs.Prelude.{◌≡◌, ◌<◌, ◌^◌, length, map, position, All};
ghost use Rattle.sa_descr.specs.Rules.{Gives, combination, rule_at, rules_of, is_given, clashes};

use crate::descr::{Descr, NaRule};
use std::alloc::Global;
use thiserror::Error;

/// Why rules do not combine.
#[derive(Clone, Copy, Debug, PartialEq, Eq, Error)]
pub enum CombineError {
    /// The rules at these two places are given and differ: the first that is given, and the first
    /// after it that differs from it.
    #[error("Clash")]
    Clash { first: u32, second: u32 },
    /// There is no memory for the rule's text.
    #[error("Memory")]
    Memory,
}

/// The rule of a call whose strings views have the descriptors with these numbers: the first that is
/// not `Absent`, or `Absent`. Two that are not `Absent` and differ clash.
pub fn combine(alloc: Global, table: &[Descr], numbers: &[u8]) -> Result<NaRule, CombineError>
    requires known { All (λ n. n < length table.now) numbers.now }
    requires few { length numbers.now < 2 ^ 32 }
    ensures { Gives result (combination (rules_of table.now numbers.now)) }
{
    let Some(first) = first_given(table, numbers) else {
        return Ok(NaRule::Absent);
    };
    let rule = rule_of(table, numbers[first]);
    match first_clash(rule, table, numbers) {
        Some(second) => Err(CombineError::Clash {
            first: first as u32,
            second: second as u32,
        }),
        None => rule.copy(alloc).map_err(|_| CombineError::Memory),
    }
}

/// The rule of the descriptor with this number.
pub fn rule_of(table: &[Descr], number: u8) -> &NaRule
    requires { number < length table.now }
    ensures { result.now ≡ rule_at (map (λ d. d.na) table.now) number }
{
    &table[usize::from(number)].na
}

/// The first place whose rule is given.
fn first_given(table: &[Descr], numbers: &[u8]) -> Option<usize>
    requires { All (λ n. n < length table.now) numbers.now }
    ensures { result ≡ position (λ n. is_given (rule_at (map (λ d. d.na) table.now) n)) numbers.now }
{
    numbers.iter().position(|n| rule_of(table, *n).is_given())
}

/// The first place whose rule clashes with this one.
fn first_clash(rule: &NaRule, table: &[Descr], numbers: &[u8]) -> Option<usize>
    requires { All (λ n. n < length table.now) numbers.now }
    ensures { result ≡ position (λ n. clashes rule.now (rule_at (map (λ d. d.na) table.now) n)) numbers.now }
{
    numbers
        .iter()
        .position(|n| clashes(rule, rule_of(table, *n)))
}

/// Whether another rule is given and differs from this one.
fn clashes(rule: &NaRule, other: &NaRule) -> bool
    ensures { result ≡ clashes rule.now other.now }
{
    other.is_given() && !other.is_same(rule)
}
