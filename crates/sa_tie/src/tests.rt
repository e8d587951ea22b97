mod threads;

ghost use Rattle.std.specs.Prelude.{◌≡◌, [], ◌∷◌, ◌++◌, true};
ghost use Rattle.sa_tie.specs.Ends.{IsNear, IsFar, Turns};
ghost use Rattle.sa_tie.specs.Views.{linked};

use crate::exchange::{carry, level};
use crate::rule::{Place, Row, Steps};
use crate::steps::{announce, join_note, join_receipt, link, part, split_note, split_receipt};
use crate::{Far, Near, meet, pull, tie};
use std::test::Fail;

// Pulls 5 and then 9: both ends have these keys and no others.
fn pull_5_and_9(near: &mut Near, far: &mut Far)
    requires tie { near.old.tie ≡ far.old.tie }
    requires empty { near.old.keys ≡ [] }
    ensures near { (near.new.tie ≡ near.old.tie) × (near.new.keys ≡ 5 ∷ 9 ∷ []) }
    ensures far { (far.new.tie ≡ far.old.tie) × (far.new.keys ≡ 5 ∷ 9 ∷ []) }
{
    pull(near, far, 5);
    pull(near, far, 9);
}

#[test]
fn both_ends_have_what_was_pulled(rt: HostRuntime) -> Result<(), Fail> {
    let (mut near, mut far) = tie(rt.alloc())?;
    meet(&mut near, &mut far);
    pull_5_and_9(&mut near, &mut far);
    meet(&mut near, &mut far);
    pull(&mut near, &mut far, u64::MAX);
    Ok(())
}

fn words(steps: &Steps) -> [u64; 2]
    requires { steps.now.table_id.words ≡ 2 }
{
    [steps.peek(0), steps.peek(1)]
}

// Announces 5 and pulls nothing: the near end is open, and one key longer than the far end.
fn announce_5(steps: &Steps, near: &mut Place, far: &Place)
    requires near { IsNear steps.now.table_id near.old }
    requires equal { near.old.me.0.keys ≡ far.now.me.0.keys }
    ensures open { (near.new.table_id ≡ near.old.table_id) × (near.new.me.0.part ≡ near.old.me.0.part) × (near.new.me.0.is_open ≡ true) }
    ensures longer { near.new.me.0.keys ≡ far.now.me.0.keys ++ 5 ∷ [] }
{
    announce(steps, near, 5);
}

#[test]
fn the_words_are_the_last_keys(rt: HostRuntime) -> Result<(), Fail> {
    let (row, mut near) = Row::of_words(rt.alloc(), &[0, 0], &())?;
    let steps = &row.shared;
    let mut far = part(steps, &mut near);
    assert_eq!(rt; words(steps), [0, 0]);
    announce_5(steps, &mut near, &far);
    assert_eq!(rt; words(steps), [5, 0]);
    let note = split_note(steps, &mut near);
    join_note(steps, &mut far, note);
    link(steps, &mut far, 5);
    assert_eq!(rt; words(steps), [5, 5]);
    let receipt = split_receipt(steps, &mut far);
    join_receipt(steps, &mut near, receipt);
    level(steps, &mut near, &mut far);
    assert_eq!(rt; words(steps), [5, 5]);
    carry(steps, &mut near, &mut far, 9);
    assert_eq!(rt; words(steps), [9, 9]);
    Ok(())
}
