ghost use Rattle.std.specs.Prelude.{◌≡◌, ◌≤◌, ◌<◌, slice_index_or, not, true, false};
ghost use Rattle.sa_base.specs.Items.{MissingItem};
ghost use Rattle.sa_plain.specs.Items.{count_of, items_of};
ghost use Rattle.sa_plain.specs.Widths.{most_width};
ghost use Rattle.std.specs.List.{list_all, list_any};
ghost use Rattle.sa_text.specs.Values.{is_missing};
ghost use Rattle.sa_call.specs.Decides.{forbids};
ghost use Rattle.sa_call.specs.Elements.{is_missing_item};
ghost use Rattle.sa_call.specs.Kinds.{output_width};
ghost use Rattle.sa_call.specs.Limits.{most_weight};
ghost use Rattle.sa_call.specs.Refusals.{refused, refusal_of};
ghost use Rattle.sa_call.specs.Valid.{is_output_of};

use crate::decls::{Decls, Kind};
use crate::reply::Refusal;
use crate::row::is_missing_at;
use crate::rules::kind_of;
use sa_descr::rule_of;
use sa_plain::{Items, PlainKind};
use sa_text::Value;
use sa_view::View;

/// The most that one call weighs.
pub const MOST_WEIGHT: u64 = 1_048_576;

/// Whether the output forbids missing values: its home's rule has none.
pub fn forbids(decls: &Decls, out: &Option<View>) -> bool
    requires { is_output_of decls.now out.now ≡ true }
    ensures { result ≡ forbids decls.now out.now }
{
    match out {
        None => false,
        Some(out) => {
            let array = &decls.arrays()[out.array as usize];
            !rule_of(decls.descrs(), array.home).is_given()
        }
    }
}

/// How wide the output's texts are; 0 where they have no fixed width, or there is no output.
pub(crate) fn output_width(decls: &Decls, out: &Option<View>) -> u16
    requires { is_output_of decls.now out.now ≡ true }
    ensures width { result ≡ output_width decls.now out.now }
    ensures most { result ≤ most_width }
{
    let _declared = decls.arrays();
    match out {
        None => 0,
        Some(out) => match kind_of(decls, out.array) {
            Kind::Str | Kind::Plain(PlainKind::Int | PlainKind::Bool) => 0,
            Kind::Plain(PlainKind::Bytes(width) | PlainKind::Fixed(width)) => width,
        },
    }
}

/// Why results are refused that follow this weight: the first that is missing where that is forbidden, or
/// with which the weight passes its limit. Where the weight is within its limit, one value that stands for
/// many is looked at once.
pub fn results_refusal(forbidden: bool, weight: u64, results: &Items) -> Option<(Refusal, u32)>
    requires light { weight ≤ most_weight }
    requires few { count_of results.now ≤ 8192 }
    ensures { result ≡ refused forbidden weight 0 (items_of results.now) }
{
    if weight + results.weight() > MOST_WEIGHT {
        return first_refusal(forbidden, weight, results);
    }
    if !forbidden {
        return None;
    }
    if is_without_missing(results) {
        return None;
    }
    first_refusal(forbidden, weight, results)
}

/// Whether surely no result is missing. One value that stands for many is looked at once.
fn is_without_missing(results: &Items) -> bool
    ensures { result ≡ true → list_any is_missing_item (items_of results.now) ≡ false }
{
    match results {
        Items::Values(values) => are_present(values.as_slice()),
        Items::Ints(_numbers) => true,
        Items::Flags(_flags) => true,
        Items::Bytes(_rows) => true,
        Items::Units(_rows) => true,
    }
}

/// Whether none of these values is missing.
fn are_present(values: &[Value]) -> bool
    ensures { result ≡ list_all (λ v. not (is_missing v)) values.now }
{
    values.iter().all(|value| !value.is_missing())
}

/// The first refusal among results: a missing one that is forbidden, or one with which the weight passes its
/// limit.
fn first_refusal(forbidden: bool, weight: u64, results: &Items) -> Option<(Refusal, u32)>
    requires light { weight ≤ most_weight }
    requires few { count_of results.now ≤ 8192 }
    ensures { result ≡ refused forbidden weight 0 (items_of results.now) }
{
    let mut weight = weight;
    for k in 0..results.len() {
        if let Some(cause) = refusal_at(forbidden, weight, results, k) {
            return Some((cause, k as u32));
        }
        weight += results.weight_at(k);
    }
    None
}

/// Why the result at a place, which follows this weight, is refused, if it is.
fn refusal_at(forbidden: bool, weight: u64, results: &Items, k: usize) -> Option<Refusal>
    requires light { weight ≤ most_weight }
    requires there { k < count_of results.now }
    ensures { result ≡ refusal_of forbidden weight (slice_index_or (items_of results.now) k MissingItem) }
{
    if forbidden && is_missing_at(results, k) {
        Some(Refusal::NoMissing)
    } else if weight + results.weight_at(k) > MOST_WEIGHT {
        Some(Refusal::TooMuch)
    } else {
        None
    }
}
