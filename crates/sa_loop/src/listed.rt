ghost use Rattle.std.specs.Prelude.{◌≡◌, length, map, replicate};
ghost use Rattle.std.specs.List.{range_with_len};
ghost use Rattle.sa_loop.specs.declared.act.Act.{Act};
ghost use Rattle.sa_loop.specs.declared.room.Room.{Room};
ghost use Rattle.sa_loop.specs.LastReads.{AreKnown};
ghost use Rattle.sa_loop.specs.Plays.{play_replies, play_world};
ghost use Rattle.sa_loop.specs.Runs.{arrays_in, arrays_of, holds_in, room_holds, shown, world_of};

use crate::act::Act;
use crate::last_read::LastReads;
use crate::room::Room;
use sa_call::Decls;

/// A run on one thread: the acts in order, and what they leave of each descriptor's store and plain arrays.
/// No call is marked. Every such run keeps that its acts' replies and what its rooms hold are those of the
/// play of their calls.
#[derive(Drop)]
pub struct Listed<'s> {
    pub(crate) decls: &'s Decls,
    pub(crate) rooms: Vec<Room>,
    pub(crate) acts: Vec<Act<'s>>,
    pub(crate) lasts: LastReads,
    ghost alike: { map (λ (a : Act). a.decls.now) acts.items ≡ replicate (length acts.items) decls.now },
    ghost replied: { map (λ (a : Act). a.outcome.reply) acts.items ≡ play_replies decls.now (map (λ (a : Act). a.body.now) acts.items) },
    ghost shaped: { map (λ (r : Room). arrays_in (room_holds r)) rooms.items ≡ map (arrays_of decls.now) (range_with_len 0 (length decls.now.descrs)) },
    ghost known: { AreKnown decls.now (world_of (holds_in rooms.items)) lasts.items },
    ghost left: { map (λ (r : Room). shown (room_holds r)) rooms.items ≡ map (play_world decls.now (map (λ (a : Act). a.body.now) acts.items)) (range_with_len 0 (length decls.now.descrs)) },
}
