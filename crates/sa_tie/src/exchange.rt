//! What the two ends of a tie do together.
ghost use Rattle.std.specs.Prelude.{◌≡◌, ◌∷◌, ◌++◌, []};
ghost use Rattle.sa_tie.specs.Ends.{IsNear, IsFar};

use crate::rule::{Place, Steps};
use crate::steps::{announce, join_note, join_receipt, link, look, split_note, split_receipt};

/// Tells that the lists are equal: a note and a receipt go across, and each end looks at what it took in.
#[tactic(auto, using(crate::proofs::PrefixLemmas::both_ways))]
pub fn level(steps: &Steps, near: &mut Place, far: &mut Place)
    requires near { IsNear steps.now.table_id near.old }
    requires far { IsFar steps.now.table_id far.old }
    ensures equal { near.old.me.0.keys ≡ far.old.me.0.keys }
    ensures near { IsNear steps.now.table_id near.new × (near.new.me.0.keys ≡ near.old.me.0.keys) }
    ensures far { IsFar steps.now.table_id far.new × (far.new.me.0.keys ≡ far.old.me.0.keys) }
{
    let note = split_note(steps, near);
    join_note(steps, far, note);
    let receipt = split_receipt(steps, far);
    join_receipt(steps, near, receipt);
    look(steps, far);
    look(steps, near);
}

/// Takes a key from the near end to the far end, where the lists are equal: it is announced, and linked by
/// a note of it, and a receipt closes the near end.
pub fn carry(steps: &Steps, near: &mut Place, far: &mut Place, key: u64)
    requires near { IsNear steps.now.table_id near.old }
    requires far { IsFar steps.now.table_id far.old }
    requires equal { near.old.me.0.keys ≡ far.old.me.0.keys }
    ensures near { IsNear steps.now.table_id near.new × (near.new.me.0.keys ≡ near.old.me.0.keys ++ key ∷ []) }
    ensures far { IsFar steps.now.table_id far.new × (far.new.me.0.keys ≡ far.old.me.0.keys ++ key ∷ []) }
{
    announce(steps, near, key);
    let announced = split_note(steps, near);
    join_note(steps, far, announced);
    link(steps, far, key);
    let linked = split_receipt(steps, far);
    join_receipt(steps, near, linked);
}
