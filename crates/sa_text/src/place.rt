ghost use Rattle.std.specs.Prelude.{◌≡◌, ◌+◌, ◌*◌, ◌≤◌, ◌++◌, [], length, take, drop, replicate, vec_capacity, IfOk};
ghost use Rattle.std.specs.List.{concat};
ghost use Rattle.sa_text.specs.Building.{bytes_of, HasRoom};
ghost use Rattle.sa_text.specs.Texts.{most_bytes};

use sa_base::Memory;
use sa_bytes::SharedBytes;
use std::alloc::Global;

/// The most bytes that are gathered with no allocation.
pub(crate) const INSIDE_MOST: usize = 14;

/// A few bytes, the first ones of an array.
#[derive(Drop)]
pub(crate) struct Few {
    filled: usize,
    bytes: [u8; INSIDE_MOST],
}

impl Few {
    /// Puts bytes at the end, for which there is room.
    #[inline]
    fn push(&mut self, part: &[u8])
        requires { self.old.filled + length part.now ≤ INSIDE_MOST }
        ensures filled { self.new.filled ≡ self.old.filled + length part.now }
        ensures whole { length self.new.bytes ≡ INSIDE_MOST }
        ensures bytes { take self.new.filled self.new.bytes ≡ take self.old.filled self.old.bytes ++ part.now }
    {
        let end = self.filled + part.len();
        self.bytes[self.filled..end].copy_from_slice(part);
        self.filled = end;
    }

    /// Puts bytes at the end so many times, for which there is room.
    fn repeat(&mut self, part: &[u8], times: usize)
        requires within { self.old.filled ≤ INSIDE_MOST }
        requires fits { self.old.filled + times * length part.now ≤ INSIDE_MOST }
        requires whole { length self.old.bytes ≡ INSIDE_MOST }
        ensures filled { self.new.filled ≡ self.old.filled + times * length part.now }
        ensures whole { length self.new.bytes ≡ INSIDE_MOST }
        ensures bytes { take self.new.filled self.new.bytes ≡ take self.old.filled self.old.bytes ++ concat (replicate times part.now) }
    {
        for _turn in 0..times {
            self.push(part);
        }
    }
}

/// Where the bytes of a text that is being made stand: inside the value, or in room taken at once.
#[derive(Drop)]
pub(crate) enum Place {
    Inside(Few),
    Room(Vec<u8>),
}

impl Place {
    /// A place with no bytes and with room for `size`. Up to 14 take no memory; `Memory` where there is
    /// none for more.
    #[inline]
    pub(crate) fn new(alloc: Global, size: usize) -> Result<Place, Memory>
        ensures { IfOk result (λ place. (bytes_of place ≡ []) × HasRoom place size) }
    {
        if size <= INSIDE_MOST {
            return Ok(Place::Inside(Few {
                filled: 0,
                bytes: [0; INSIDE_MOST],
            }));
        }
        Ok(Place::Room(Vec::with_capacity(alloc, size)?))
    }

    /// Puts bytes at the end, for which there is room: `size` is what there was room for at first.
    #[inline]
    pub(crate) fn push(&mut self, part: &[u8], size: usize)
        requires room { HasRoom self.old size }
        requires fits { length (bytes_of self.old) + length part.now ≤ size }
        ensures bytes { bytes_of self.new ≡ bytes_of self.old ++ part.now }
        ensures room { HasRoom self.new size }
    {
        match self {
            Place::Inside(few) => few.push(part),
            Place::Room(bytes) => push_into(bytes, part),
        }
    }

    /// Puts bytes at the end so many times, for which there is room: `size` is what there was room for at
    /// first.
    pub(crate) fn repeat(&mut self, part: &[u8], times: usize, size: usize)
        requires room { HasRoom self.old size }
        requires fits { length (bytes_of self.old) + times * length part.now ≤ size }
        ensures bytes { bytes_of self.new ≡ bytes_of self.old ++ concat (replicate times part.now) }
        ensures room { HasRoom self.new size }
    {
        if part.is_empty() {
            return;
        }
        match self {
            Place::Inside(few) => few.repeat(part, times),
            Place::Room(bytes) => repeat_into(bytes, part, times),
        }
    }

    /// The bytes, to be shared. Those in room of their own are not copied; `Memory` where there is none to
    /// share them.
    #[inline]
    pub(crate) fn into_bytes(self, alloc: Global, size: usize) -> Result<SharedBytes, Memory>
        requires room { HasRoom self size }
        requires few { size ≤ most_bytes }
        ensures { IfOk result (λ bytes. bytes ≡ bytes_of self) }
    {
        match self {
            Place::Inside(few) => SharedBytes::from_front(alloc, &few.bytes, few.filled),
            Place::Room(bytes) => SharedBytes::from_vec(bytes),
        }
    }
}

/// Puts bytes at the end of a vector, which has room for them.
#[inline]
fn push_into(bytes: &mut Vec<u8>, part: &[u8])
    requires { length bytes.old.items + length part.now ≤ vec_capacity bytes.old }
    ensures items { bytes.new.items ≡ bytes.old.items ++ part.now }
    ensures capacity { vec_capacity bytes.old ≤ vec_capacity bytes.new }
{
    match bytes.extend_from_slice(part) {
        Ok(()) => {}
        Err(_) => unreachable!(),
    }
}

/// Puts bytes at the end of a vector so many times, for which it has room. What stands there is copied,
/// each time as much as stands there.
fn repeat_into(bytes: &mut Vec<u8>, part: &[u8], times: usize)
    requires { length bytes.old.items + times * length part.now ≤ vec_capacity bytes.old }
    ensures items { bytes.new.items ≡ bytes.old.items ++ concat (replicate times part.now) }
    ensures capacity { vec_capacity bytes.old ≤ vec_capacity bytes.new }
{
    if times == 0 {
        return;
    }
    let start = bytes.len();
    push_into(bytes, part);
    let mut done = 1;
    while done < times {
        let more = done.min(times - done);
        copy_within(bytes, start, more * part.len());
        done += more;
    }
}

/// Puts `size` of a vector's own bytes from a place on at its end, for which it has room.
#[inline]
fn copy_within(bytes: &mut Vec<u8>, start: usize, size: usize)
    requires within { start + size ≤ length bytes.old.items }
    requires fits { length bytes.old.items + size ≤ vec_capacity bytes.old }
    ensures items { bytes.new.items ≡ bytes.old.items ++ take size (drop start bytes.old.items) }
    ensures capacity { vec_capacity bytes.old ≤ vec_capacity bytes.new }
{
    match bytes.extend_from_within(start..start + size) {
        Ok(()) => {}
        Err(_) => unreachable!(),
    }
}
