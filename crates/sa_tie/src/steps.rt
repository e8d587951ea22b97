//! The steps of a tie: what each needs, and what it makes of the views.
ghost use Rattle.std.specs.Prelude.{◌≡◌, ◌⊎◌, ◌∷◌, ◌++◌, [], true, false};
ghost use mathlib.Core.List.{IsPrefix};
ghost use Rattle.sa_tie.specs.Views.{both_ends, near_end, far_end, announced, linked, note, receipt, noted, receipted};
ghost use Rattle.sa_tie.specs.Ends.{IsSeatOf, Turns};

use crate::plays::{Announce, Ends, Link, Look, Note, Receipt};
use crate::rule::{Place, Steps};
use crate::view::Part;

const NEAR_WORD: usize = 0;

const FAR_WORD: usize = 1;

/// Parts the table's first seat into the near and the far end. Answers the far end.
#[tactic(auto, using(crate::proofs::StepLemmas::may_part))]
pub fn part(steps: &Steps, seat: &mut Place) -> Place
    requires of { IsSeatOf steps.now.table_id seat.old }
    requires both { seat.old.me.0 ≡ both_ends }
    ensures near { Turns seat.old seat.new near_end }
    ensures far { Turns seat.old result far_end }
{
    steps.split_seat::<Ends>(seat)
}

/// Announces a key at a closed near end, which opens it.
pub fn announce(steps: &Steps, near: &mut Place, key: u64)
    requires of { IsSeatOf steps.now.table_id near.old }
    requires part { near.old.me.0.part ≡ Part.Near }
    requires closed { near.old.me.0.is_open ≡ false }
    ensures { Turns near.old near.new (announced near.old.me.0 key) }
{
    let _last = steps.swap::<Announce>(near, NEAR_WORD, key);
}

/// Links a key at a far end that took in a note of its own keys and this one.
pub fn link(steps: &Steps, far: &mut Place, key: u64)
    requires of { IsSeatOf steps.now.table_id far.old }
    requires part { far.old.me.0.part ≡ Part.Far }
    requires noted { far.old.me.0.taken ≡ far.old.me.0.keys ++ key ∷ [] }
    ensures { Turns far.old far.new (linked far.old.me.0 key) }
{
    let _last = steps.swap::<Link>(far, FAR_WORD, key);
}

/// Splits a note off a near end.
#[tactic(auto, using(crate::proofs::StepLemmas::may_split_note))]
pub fn split_note(steps: &Steps, near: &mut Place) -> Place
    requires of { IsSeatOf steps.now.table_id near.old }
    requires part { near.old.me.0.part ≡ Part.Near }
    ensures near { Turns near.old near.new near.old.me.0 }
    ensures note { Turns near.old result (note near.old.me.0) × (result.me.1 ≡ []) }
{
    steps.split_seat::<Note>(near)
}

/// Joins a note into a far end.
#[tactic(auto, using(crate::proofs::StepLemmas::may_join_note))]
pub fn join_note(steps: &Steps, far: &mut Place, note: Place)
    requires of { IsSeatOf steps.now.table_id far.old × IsSeatOf steps.now.table_id note × (note.me.1 ≡ []) }
    requires part { (far.old.me.0.part ≡ Part.Far) × (note.me.0.part ≡ Part.Note) }
    ensures { Turns far.old far.new (noted far.old.me.0 note.me.0) }
{
    steps.join_seat::<Note>(far, note);
}

/// Splits a receipt off a far end.
#[tactic(auto, using(crate::proofs::StepLemmas::may_split_receipt))]
pub fn split_receipt(steps: &Steps, far: &mut Place) -> Place
    requires of { IsSeatOf steps.now.table_id far.old }
    requires part { far.old.me.0.part ≡ Part.Far }
    ensures far { Turns far.old far.new far.old.me.0 }
    ensures receipt { Turns far.old result (receipt far.old.me.0) × (result.me.1 ≡ []) }
{
    steps.split_seat::<Receipt>(far)
}

/// Joins a receipt into a near end that is closed or has just the receipt's keys, which leaves it closed.
#[tactic(auto, using(crate::proofs::StepLemmas::may_join_receipt))]
pub fn join_receipt(steps: &Steps, near: &mut Place, receipt: Place)
    requires of { IsSeatOf steps.now.table_id near.old × IsSeatOf steps.now.table_id receipt × (receipt.me.1 ≡ []) }
    requires part { (near.old.me.0.part ≡ Part.Near) × (receipt.me.0.part ≡ Part.Receipt) }
    requires whole { (near.old.me.0.is_open ≡ false) ⊎ (receipt.me.0.keys ≡ near.old.me.0.keys) }
    ensures { Turns near.old near.new (receipted near.old.me.0 receipt.me.0) }
{
    steps.join_seat::<Receipt>(near, receipt);
}

/// Loads the first word at an end. A near end learns that its receipt is a beginning of its keys, and a
/// far end the same of a note that was split off a closed near end.
pub fn look(steps: &Steps, end: &mut Place)
    requires of { IsSeatOf steps.now.table_id end.old }
    requires settled { (end.old.me.0.part ≡ Part.Near) ⊎ (end.old.me.0.part ≡ Part.Far) × (end.old.me.0.from_closed ≡ true) }
    ensures view { Turns end.old end.new end.old.me.0 }
    ensures told { IsPrefix end.old.me.0.taken end.old.me.0.keys }
{
    let _last = steps.load::<Look>(end, NEAR_WORD);
}
