ghost use Rattle.std.specs.Prelude.{◌≡◌, length, map, IfOk};
ghost use Rattle.std.specs.List.{range_with_len};
ghost use Rattle.sa_call.specs.Decls.{IsDeclared};
ghost use Rattle.sa_loop.specs.Runs.{opening_holds, room_holds};
ghost use Rattle.sa_loop.specs.States.{lengths_of, plains_of};

use crate::room::Room;
use sa_alloc::Store;
use sa_base::Memory;
use sa_call::{Decls, Kind, PlainKind};
use sa_hall::opening_plains;
use std::alloc::Global;

/// What each descriptor holds before the first call.
pub fn opening_rooms(alloc: Global, decls: &Decls) -> Result<Vec<Room>, Memory>
    requires { IsDeclared decls.now }
    ensures { IfOk result (λ rooms. map room_holds rooms.items ≡ map (opening_holds decls.now) (range_with_len 0 (length decls.now.descrs))) }
{
    let count = decls.descrs().len();
    let mut rooms = Vec::with_capacity(alloc, count)?;
    for home in 0..count {
        rooms.push(opening_room(alloc, decls, home)?)?;
    }
    Ok(rooms)
}

/// What a descriptor holds before the first call.
fn opening_room(alloc: Global, decls: &Decls, home: usize) -> Result<Room, Memory>
    requires { IsDeclared decls.now }
    ensures { IfOk result (λ room. room_holds room ≡ opening_holds decls.now home) }
{
    let lengths = lengths_of(alloc, decls, home)?;
    let kinds = plains_of(alloc, decls, home)?;
    Ok(Room {
        store: Store::new(alloc, lengths.as_slice())?,
        plains: opening_plains(alloc, kinds.as_slice())?,
    })
}

/// The lengths of a descriptor's strings arrays, in order of declaration.
pub(crate) fn lengths_of(alloc: Global, decls: &Decls, home: usize) -> Result<Vec<u32>, Memory>
    ensures { IfOk result (λ lengths. lengths.items ≡ lengths_of decls.now home) }
{
    let mut lengths = Vec::new(alloc);
    for array in decls.arrays() {
        if array.home as usize == home && array.kind.is_strings() {
            lengths.push(array.len)?;
        }
    }
    Ok(lengths)
}

/// The kinds and the lengths of a descriptor's plain arrays, in order of declaration.
pub(crate) fn plains_of(
    alloc: Global,
    decls: &Decls,
    home: usize,
) -> Result<Vec<(PlainKind, u32)>, Memory>
    ensures { IfOk result (λ plains. plains.items ≡ plains_of decls.now home) }
{
    let mut plains = Vec::new(alloc);
    for array in decls.arrays() {
        if array.home as usize == home {
            match array.kind {
                Kind::Str => {}
                Kind::Plain(kind) => plains.push((kind, array.len))?,
            }
        }
    }
    Ok(plains)
}
