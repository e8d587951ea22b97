//! Ends that cross threads.
ghost use Rattle.std.specs.Prelude.{◌≡◌};
ghost use Rattle.atomic_table.specs.Seated.{TableId};

use crate::{Far, Near, meet, pull, tie};
use std::marker::{Brand, PhantomData};
use std::sync::{Mutex, Wait};
use std::test::Fail;
use std::thread::{Threads, join};

// Which tie it is.
trait Named {
    ghost tie: { TableId };
}

impl Named for Brand {
    ghost use Rattle.std.specs.Prelude.{[]};

    ghost tie = { record {
      words = 0;
      slots = 0;
      views_name = 0;
      atom = 0;
      block = 0;
      offset = 0;
      slot_names = [];
    } };
}

// What the first lock guards: the near end of the tie.
#[derive(Drop)]
struct NearOf<N: Named> {
    end: Near,
    of: PhantomData<N>,
    ghost tie_is: { end.tie ≡ N.tie },
}

// What the second lock guards: the far end of the tie.
#[derive(Drop)]
struct FarOf<N: Named> {
    end: Far,
    of: PhantomData<N>,
    ghost tie_is: { end.tie ≡ N.tie },
}

fn pull_named<N: Named>(near: &mut NearOf<N>, far: &mut FarOf<N>, key: u64) {
    pull(&mut near.end, &mut far.end, key);
}

fn pull_all<N: Named, R: Wait>(
    rt: &R,
    near: &Mutex<NearOf<N>>,
    far: &Mutex<FarOf<N>>,
    keys: &[u64],
) {
    for key in keys {
        pull_named(&mut near.lock(rt), &mut far.lock(rt), *key);
    }
}

// Two threads pull at once, under a lock for each end. Afterwards the two lists are equal.
fn pull_in_two_threads<N: Named + Send + Sync, R: Threads + Wait + Sync>(
    rt: &R,
    near: Near,
    far: Far,
) -> (Near, Far)
    requires near { near.tie ≡ N.tie }
    requires far { far.tie ≡ N.tie }
    ensures { (result.0.tie ≡ result.1.tie) × (result.0.keys ≡ result.1.keys) }
{
    let near = Mutex::new(NearOf::<N> {
        end: near,
        of: PhantomData,
    });
    let far = Mutex::new(FarOf::<N> {
        end: far,
        of: PhantomData,
    });
    let even = [0, 2, 4, 6, 8];
    let odd = [1, 3, 5, 7, 9];
    join(
        rt,
        || pull_all(rt, &near, &far, &even),
        || pull_all(rt, &near, &far, &odd),
    );
    let NearOf {
        end: mut near,
        of: _,
    } = near.into_inner();
    let FarOf {
        end: mut far,
        of: _,
    } = far.into_inner();
    meet(&mut near, &mut far);
    (near, far)
}

#[test]
fn two_threads_hold_the_ends(rt: HostRuntime) -> Result<(), Fail> {
    let (near, far) = tie(rt.alloc())?;
    let (mut near, mut far) = pull_in_two_threads::<Brand, _>(&rt, near, far);
    pull(&mut near, &mut far, 10);
    Ok(())
}

fn send<T: Send>(value: T) -> T
    ensures { result ≡ value }
{
    value
}

#[test]
fn each_thread_may_hold_an_end(rt: HostRuntime) -> Result<(), Fail> {
    let (near, far) = tie(rt.alloc())?;
    let (mut near, mut far) = join(&rt, move || send(near), move || send(far));
    meet(&mut near, &mut far);
    Ok(())
}
