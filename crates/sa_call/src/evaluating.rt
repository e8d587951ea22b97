ghost use Rattle.std.specs.Prelude.{ℕ, ◌≡◌, ◌≤◌, List, length, map, nat_lt, IfOk, Ok, Some, true, if◌then◌else◌};
ghost use Rattle.std.specs.List.{All};
ghost use Rattle.sa_plain.specs.Items.{count_of, items_of};
ghost use Rattle.sa_call.specs.Calls.{elements_in, operand_count};
ghost use Rattle.sa_call.specs.Columns.{columns_read, columns_weight, outcome_read, AreColumns};
ghost use Rattle.sa_call.specs.Decides.{decide, done, outcome_of, outcome_on, refused_with};
ghost use Rattle.sa_call.specs.Decls.{IsDeclared};
ghost use Rattle.sa_call.specs.Forms.{entry, IsMoving};
ghost use Rattle.sa_call.specs.Kinds.{lists_fit, output_fits};
ghost use Rattle.sa_call.specs.Limits.{most_entries, most_items, most_weight};
ghost use Rattle.sa_base.specs.Deeds.{picture_weight};
ghost use Rattle.sa_call.specs.Told.{parts_told, view_counts, AreOperands, AreWeights};
ghost use Rattle.sa_call.specs.Valid.{IsCall};
ghost use Rattle.sa_call.specs.Walks.{computed_outcome};
ghost use Rattle.sa_call.specs.declared.form.Gives.TheVariants.{Items as GivesItems};
ghost use Rattle.sa_call.specs.declared.reply.Refusal.TheVariants.{TooMuch};
ghost use Rattle.sa_call.specs.declared.reply.Reply.TheVariants.{Pictured};

use crate::call::{Call, Operand};
use crate::columns::{columns, columns_weight};
use crate::decls::Decls;
use crate::element::Setting;
use crate::operands::{Operands, Picture};
use crate::refusals::{MOST_WEIGHT, forbids, output_width, results_refusal};
use crate::reply::{Outcome, Refusal, Reply};
use crate::rules::{rule_in, text_of_rule};
use crate::walking::{Halt, walk};
use sa_base::Memory;
use sa_descr::{MissGroup, miss_of};
use sa_plain::Items;
use sa_view::broadcast;
use std::alloc::Global;

/// What comes of a call, by what was read for it: its results, where it has an output and is not refused,
/// and its reply. The results may be put into the output. `Memory` where there is no memory for the outcome.
pub fn evaluate(
    alloc: Global,
    decls: &Decls,
    call: &Call,
    read: &Operands,
) -> Result<Outcome, Memory>
    requires call { IsCall decls.now call.now }
    requires read { AreOperands decls.now call.now read.now }
    ensures decided { IfOk result (λ o. (weights : List ℕ) → AreWeights decls.now call.now read.now weights → o ≡ decide decls.now call.now (parts_told decls.now call.now read.now weights)) }
    ensures fits { IfOk result (λ o. output_fits decls.now call.now.out o.results ≡ true) }
{
    match read {
        Operands::Big(_) => Ok(Outcome::refused(Refusal::TooMuch, 0)),
        Operands::Stats(stats) => Ok(Outcome::answered(Reply::Sized(*stats))),
        Operands::Picture(picture) => drawn(alloc, picture),
        Operands::Items(lists) => {
            decls.limits_hold();
            evaluate_items(alloc, decls, call, lists.as_slice())
        }
    }
}

/// The answer of a picture, which is refused where it weighs too much.
fn drawn(alloc: Global, picture: &Picture) -> Result<Outcome, Memory>
    requires { length picture.now.entries ≤ most_entries }
    ensures { IfOk result (λ o. o ≡ (if nat_lt most_weight (picture_weight picture.now.entries picture.now.arena) then refused_with TooMuch 0 else done (Pictured picture.now))) }
{
    if picture.weight() > MOST_WEIGHT {
        return Ok(Outcome::refused(Refusal::TooMuch, 0));
    }
    Ok(Outcome::answered(Reply::Pictured(picture.copy(alloc)?)))
}

/// What comes of a call that read lists.
fn evaluate_items(
    alloc: Global,
    decls: &Decls,
    call: &Call,
    lists: &[Items],
) -> Result<Outcome, Memory>
    requires declared { IsDeclared decls.now }
    requires call { IsCall decls.now call.now }
    requires items { (entry call.now.op).gives ≡ GivesItems }
    requires lists { map count_of lists.now ≡ view_counts call.now.operands }
    requires fit { lists_fit decls.now call.now.operands lists.now ≡ true }
    ensures outcome { IfOk result (λ o. o ≡ outcome_read decls.now call.now (columns_read call.now.operands lists.now)) }
    ensures fits { IfOk result (λ o. output_fits decls.now call.now.out o.results ≡ true) }
{
    let columns = columns(alloc, call.operands.as_slice(), lists)?;
    let columns = columns.as_slice();
    let weight = columns_weight(columns);
    if weight > MOST_WEIGHT {
        return Ok(Outcome::refused(Refusal::TooMuch, 0));
    }
    match call.op.form().group {
        None => moved(alloc, decls, call, columns, weight),
        Some(group) => made(alloc, decls, call, group, columns, weight),
    }
}

/// What comes of a call that moves the items of its one operand, which have this weight.
fn moved(
    alloc: Global,
    decls: &Decls,
    call: &Call,
    columns: &[&Items],
    weight: u64,
) -> Result<Outcome, Memory>
    requires declared { IsDeclared decls.now }
    requires call { IsCall decls.now call.now }
    requires moves { IsMoving call.now.op }
    requires counts { map (λ c. count_of c.now) columns.now ≡ map operand_count call.now.operands }
    requires columns { AreColumns decls.now call.now.operands (map (λ c. c.now) columns.now) }
    requires light { weight ≤ most_weight }
    ensures outcome { IfOk result (λ o. o ≡ outcome_on decls.now call.now weight (map (λ c. items_of c.now) columns.now)) }
    ensures fits { IfOk result (λ o. output_fits decls.now call.now.out o.results ≡ true) }
{
    let Some(items) = columns.first() else {
        unreachable!()
    };
    let count = elements_in(alloc, call)? as usize;
    let width = output_width(decls, &call.out);
    let results = items.stretched(alloc, count)?.widened(alloc, width)?;
    let forbidden = forbids(decls, &call.out);
    match results_refusal(forbidden, weight, &results) {
        Some((cause, at)) => Ok(Outcome::refused(cause, at)),
        None => Ok(given(call, results)),
    }
}

/// What comes of a call of a group of missing values, whose operands have this weight.
fn made(
    alloc: Global,
    decls: &Decls,
    call: &Call,
    group: MissGroup,
    columns: &[&Items],
    weight: u64,
) -> Result<Outcome, Memory>
    requires declared { IsDeclared decls.now }
    requires call { IsCall decls.now call.now }
    requires group { (entry call.now.op).group ≡ Some group }
    requires light { weight ≤ most_weight }
    ensures { IfOk result (λ o. o ≡ computed_outcome decls.now call.now weight (map (λ c. items_of c.now) columns.now)) }
{
    let count = elements_in(alloc, call)?;
    let rule = rule_in(alloc, decls, call)?;
    let setting = Setting {
        op: call.op,
        miss: miss_of(group, &rule),
        blank: text_of_rule(alloc, rule)?,
        forbidden: forbids(decls, &call.out),
    };
    match walk(alloc, &setting, columns, weight, count) {
        Ok(results) => Ok(given(call, results)),
        Err(Halt::Refused(cause, at)) => Ok(Outcome::refused(cause, at)),
        Err(Halt::Memory) => Err(Memory),
    }
}

/// Results that are not refused: for the output, or the answer where there is none.
fn given(call: &Call, results: Items) -> Outcome
    ensures { result ≡ outcome_of call.now.out (Ok results) }
{
    match call.out {
        Some(_) => Outcome {
            results: Some(results),
            reply: Reply::Done,
        },
        None => Outcome::answered(Reply::Shown(results)),
    }
}

/// How many elements a call has.
fn elements_in(alloc: Global, call: &Call) -> Result<u32, Memory>
    requires few { length call.now.operands ≤ 8 }
    requires short { All (λ o. operand_count o ≤ most_items) call.now.operands }
    ensures { IfOk result (λ n. n ≡ elements_in call.now) }
{
    let mut counts = Vec::with_capacity(alloc, call.operands.len() + 1)?;
    for operand in call.operands.as_slice() {
        counts.push(operand_count(operand))?;
    }
    if let Some(out) = &call.out {
        counts.push(out.count)?;
    }
    Ok(broadcast(counts.as_slice()).unwrap_or(0))
}

/// How many items an operand has.
fn operand_count(operand: &Operand) -> u32
    requires { operand_count operand.now ≤ most_items }
    ensures { result ≡ operand_count operand.now }
{
    match operand {
        Operand::View(view) => view.count,
        Operand::Literal(items) => items.len() as u32,
    }
}
