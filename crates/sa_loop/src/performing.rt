ghost use Rattle.std.specs.Prelude.{◌≡◌, ◌<◌, [], ℕ, List, length, map, replicate, true, None, IfOk, OnOk, OnErr};
ghost use Rattle.sa_call.specs.Decls.{Declared, IsDeclared};
ghost use Rattle.sa_call.specs.Valid.{IsCall};
ghost use Rattle.sa_call.specs.Decides.{decide};
ghost use Rattle.sa_call.specs.Kinds.{output_fits};
ghost use Rattle.sa_call.specs.Told.{parts_told, AreOperands, AreWeights};
ghost use Rattle.sa_loop.specs.LastReads.{unknown_output, AreKnown, AreThere};
ghost use Rattle.sa_loop.specs.States.{World};
ghost use Rattle.sa_loop.specs.Performs.{IsOneMore, CanPut, IsSoundAt};
ghost use Rattle.sa_loop.specs.Runs.{holds_in, room_keeps, shown, world_of};
ghost use Rattle.sa_base.specs.Deeds.{writes_at};
ghost use Rattle.sa_hall.specs.Contents.{after_writes};
ghost use Rattle.sa_loop.specs.Writes.{world_after, writes_told};

use crate::act::Act;
use crate::last_read::{LastRead, LastReads, place};
use crate::listed::Listed;
use crate::opening::opening_rooms;
use crate::room::Room;
use crate::taking::take;
use crate::writing::put_results;
use sa_base::Memory;
use sa_call::{Call, Decls, Items, Operands, Outcome, View, evaluate, home_of};
use std::alloc::Global;

impl<'s> Listed<'s> {
    /// The opening world, with no acts and no marks.
    pub fn new(alloc: Global, decls: &'s Decls) -> Result<Listed<'s>, Memory>
        ensures decls { IfOk result (λ l. l.decls.now ≡ decls.now) }
        ensures acts { IfOk result (λ l. l.acts.items ≡ []) }
    {
        let _ = decls.arrays();
        let rooms = opening_rooms(alloc, decls)?;
        Ok(Listed {
            decls,
            rooms,
            acts: Vec::new(alloc),
            lasts: unread(alloc, decls.arrays().len())?,
        })
    }

    /// Performs one call under the declarations that the run was made with. All operands are read before
    /// anything is written, and the results are put into the output in order; a refused call changes
    /// nothing. After a want of memory all is as before.
    pub fn perform(
        &mut self,
        alloc: Global,
        decls: &'s Decls,
        task: u32,
        number: u32,
        call: &'s Call,
    ) -> Result<(), Memory>
        requires decls { decls.now ≡ self.old.decls.now }
        requires call { IsCall decls.now call.now }
        ensures act { OnOk result (IsOneMore self.old.decls.now (holds_in self.old.rooms.items) call.now task number self.old.acts.items self.new.acts.items) }
        ensures world { OnOk result ((d : ℕ) → d < length self.old.decls.now.descrs → shown (holds_in self.new.rooms.items d) ≡ world_after self.old.decls.now (world_of (holds_in self.old.rooms.items)) call.now d) }
        ensures decls { self.new.decls.now ≡ self.old.decls.now }
        ensures kept_acts { OnErr result (self.new.acts.items ≡ self.old.acts.items) }
        ensures kept_rooms { OnErr result (map room_keeps self.new.rooms.items ≡ map room_keeps self.old.rooms.items) }
    {
        let own = self.decls;
        let _declared = own.arrays();
        self.acts.reserve(1)?;
        let (read, weights) = take(alloc, own, &self.rooms, call, &mut self.lasts)?;
        let outcome = evaluated(alloc, own, call, &read)?;
        put_outcome(alloc, own, &mut self.rooms, &call.out, &outcome.results)?;
        forget_output(&mut self.lasts, &call.out);
        remember_output(alloc, &mut self.lasts, &call.out, &outcome.results);
        self.acts
            .push_reserved(Act::new(own, task, number, call, read, weights, outcome));
        Ok(())
    }
}

/// What comes of a call, by what was read for it, with results that copies share.
pub(crate) fn evaluated(
    alloc: Global,
    decls: &Decls,
    call: &Call,
    read: &Operands,
) -> Result<Outcome, Memory>
    requires call { IsCall decls.now call.now }
    requires read { AreOperands decls.now call.now read.now }
    ensures fits { IfOk result (λ o. output_fits decls.now call.now.out o.results ≡ true) }
    ensures decided { IfOk result (λ o. (weights : List ℕ) → AreWeights decls.now call.now read.now weights → o ≡ decide decls.now call.now (parts_told decls.now call.now read.now weights)) }
{
    let mut outcome = evaluate(alloc, decls, call, read)?;
    if let Some(results) = &mut outcome.results {
        results.share(alloc)?;
    }
    Ok(outcome)
}

/// Puts a call's results, where it has some, into the room of its output's home.
fn put_outcome(
    alloc: Global,
    decls: &Decls,
    rooms: &mut Vec<Room>,
    out: &Option<View>,
    results: &Option<Items>,
) -> Result<(), Memory>
    requires { CanPut decls.now (holds_in rooms.old.items) (length rooms.old.items) out.now results.now }
    ensures sound { IsSoundAt decls.now (holds_in rooms.old.items) out.now results.now }
    ensures written { OnOk result ((d : ℕ) → holds_in rooms.new.items d ≡ after_writes (holds_in rooms.old.items d) (writes_at (writes_told decls.now out.now results.now) d)) }
    ensures many { length rooms.new.items ≡ length rooms.old.items }
    ensures kept { OnErr result (map room_keeps rooms.new.items ≡ map room_keeps rooms.old.items) }
{
    match (out, results) {
        (Some(out), Some(results)) => {
            let home = home_of(decls, out.array);
            put_results(alloc, decls, &mut rooms[home as usize], out, results)
        }
        _ => Ok(()),
    }
}

/// Of so many arrays nothing was read.
fn unread(alloc: Global, arrays: usize) -> Result<LastReads, Memory>
    ensures { IfOk result (λ lasts. lasts.items ≡ replicate arrays None) }
{
    let mut lasts = Vec::with_capacity(alloc, arrays)?;
    for _k in 0..arrays {
        lasts.push(None)?;
    }
    Ok(lasts)
}

/// Forgets what was read of the array of an output.
fn forget_output(lasts: &mut LastReads, out: &Option<View>)
    ensures { lasts.new.items ≡ unknown_output out.now lasts.old.items }
{
    if let Some(out) = out {
        place(lasts, out.array, None);
    }
}

/// Notes that the strings array of an output has these results at its places.
fn remember_output(
    alloc: Global,
    lasts: &mut LastReads,
    out: &Option<View>,
    results: &Option<Items>,
)
    ensures { (decls : Declared) → (w : World) → AreKnown decls w lasts.old.items → AreThere decls w out.now results.now → AreKnown decls w lasts.new.items }
{
    if let (Some(out), Some(Items::Values(results))) = (out, results) {
        if let Ok(list) = results.copy(alloc) {
            place(lasts, out.array, Some(LastRead { view: *out, list }));
        }
    }
}
