ghost use Rattle.std.specs.Prelude.{◌≡◌, ◌+◌, ◌≤◌, ◌<◌, ◌^◌, ◌==◌, [], length, take, drop, IfOk};
ghost use Rattle.std.specs.Arc.{arc_value};
ghost use Rattle.std.specs.Str.{bytes_eq};
ghost use Rattle.sa_bytes.specs.Limits.{most_shared};

use crate::block::Block;
use sa_base::Memory;
use std::alloc::Global;
use std::marker::Model;
use std::mem::size_of;
use std::sync::Arc;

/// The most bytes that stand inside a value.
pub const INSIDE_MOST: usize = 14;

const _: () = prove!(size_of::<SharedBytes>() == 16);

/// Where the bytes stand: inside the value, or as a part of a counted block. A part has at least one
/// byte, and keeps the place of its last one behind its first, so that 65,536 bytes can be told.
#[derive(Debug, Drop)]
pub(crate) enum Held {
    Inside {
        size: u8,
        bytes: [u8; INSIDE_MOST],
    },
    Part {
        last: u16,
        start: u32,
        block: Arc<Vec<u8>>,
    },
}

/// Bytes that never change, at most 65,536. Up to 14 stand inside the value; more are a part of a block
/// that all copies share, which are counted. Contracts see the list of bytes.
#[derive(Debug, Drop)]
pub struct SharedBytes {
    held: Held,
}

impl Model for SharedBytes {
    ghost use Rattle.std.specs.Prelude.{List, ℕ};

    ghost Value = { List ℕ };

    ghost use Rattle.sa_bytes.specs.Holding.{bytes_of, IsHeld};

    ghost view = { λ b. bytes_of b.held };

    ghost invariant = { λ b. IsHeld b.held };
}

impl SharedBytes {
    /// No bytes. It takes no memory.
    #[inline]
    pub fn new() -> SharedBytes
        ensures { result ≡ [] }
    {
        let held = Held::Inside {
            size: 0,
            bytes: [0; INSIDE_MOST],
        };
        SharedBytes { held }
    }

    /// The bytes of a slice of at most 65,536. Up to 14 take no memory, and more take two allocations.
    /// `Memory` where one is refused.
    #[inline]
    pub fn from_slice(alloc: Global, bytes: &[u8]) -> Result<SharedBytes, Memory>
        requires { length bytes.now ≤ most_shared }
        ensures { IfOk result (λ b. b ≡ bytes.now) }
    {
        SharedBytes::from_front(alloc, bytes, bytes.len())
    }

    /// The first `size` bytes of a slice, at most 65,536. Of a slice that has bytes behind them some of
    /// those are copied too, and count for nothing: a copy whose size is known when the program is built
    /// is much faster. `Memory` where an allocation is refused.
    #[inline(always)]
    pub fn from_front(alloc: Global, bytes: &[u8], size: usize) -> Result<SharedBytes, Memory>
        requires within { size ≤ length bytes.now }
        requires few { size ≤ most_shared }
        ensures { IfOk result (λ b. b ≡ take size bytes.now) }
    {
        if size <= INSIDE_MOST {
            return Ok(SharedBytes::inside(bytes, size));
        }
        Block::new(alloc, Vec::from_slice(alloc, &bytes[..size])?)?.part(0, size)
    }

    /// The bytes of a vector of at most 65,536. Up to 14 are copied; more are kept where they stand, and
    /// take one allocation, for the count. `Memory` where it is refused.
    #[inline]
    pub fn from_vec(bytes: Vec<u8>) -> Result<SharedBytes, Memory>
        requires { length bytes.items ≤ most_shared }
        ensures { IfOk result (λ b. b ≡ bytes.items) }
    {
        let size = bytes.len();
        if size <= INSIDE_MOST {
            return Ok(SharedBytes::inside(&bytes, size));
        }
        Block::new(*bytes.allocator(), bytes)?.part(0, size)
    }

    /// `size` of the bytes from a place on. It takes no memory: up to 14 are copied, and of more the part
    /// is counted; `Memory` means that the count is full.
    #[inline]
    pub fn part(&self, start: usize, size: usize) -> Result<SharedBytes, Memory>
        requires { start + size ≤ length self.now }
        ensures { IfOk result (λ b. b ≡ take size (drop start self.now)) }
    {
        if size <= INSIDE_MOST {
            return Ok(SharedBytes::inside(&self.as_slice()[start..], size));
        }
        match &self.held {
            Held::Inside { .. } => unreachable!(),
            Held::Part {
                last,
                start: first,
                block,
            } => part_of_part(*last, *first, block, start, size),
        }
    }

    /// The first `size` bytes of a slice, which stand inside the value.
    #[inline(always)]
    pub(crate) fn inside(bytes: &[u8], size: usize) -> SharedBytes
        requires within { size ≤ length bytes.now }
        requires fits { size ≤ INSIDE_MOST }
        ensures { result ≡ take size bytes.now }
    {
        let held = Held::Inside {
            size: size as u8,
            bytes: front(bytes, size),
        };
        SharedBytes { held }
    }

    /// What a block holds from a place on, up to the byte that stands `last` places behind it.
    #[inline(always)]
    pub(crate) fn of_part(last: u16, start: u32, block: Arc<Vec<u8>>) -> SharedBytes
        requires within { start + last < length (arc_value block).items }
        requires small { length (arc_value block).items < 2 ^ 32 }
        ensures { result ≡ take (last + 1) (drop start (arc_value block).items) }
    {
        SharedBytes {
            held: Held::Part { last, start, block },
        }
    }

    /// The same bytes once more. It takes no memory: of bytes that are shared it counts the copy, and
    /// `Memory` means that the count is full.
    #[inline]
    pub fn copy(&self) -> Result<SharedBytes, Memory>
        ensures { IfOk result (λ b. b ≡ self.now) }
    {
        let held = match &self.held {
            Held::Inside { size, bytes } => Held::Inside {
                size: *size,
                bytes: *bytes,
            },
            Held::Part { last, start, block } => Held::Part {
                last: *last,
                start: *start,
                block: Arc::try_clone(block)?,
            },
        };
        Ok(SharedBytes { held })
    }

    /// The bytes, lent.
    #[inline]
    pub fn as_slice(&self) -> &[u8]
        ensures bytes { result.now ≡ self.now }
        ensures most { length result.now ≤ most_shared }
    {
        match &self.held {
            Held::Inside { size, bytes } => &bytes[..*size as usize],
            Held::Part { last, start, block } => {
                let rest = &block.as_slice()[*start as usize..];
                &rest[..*last as usize + 1]
            }
        }
    }

    /// How many bytes there are. It is read from the value itself.
    #[inline]
    pub fn len(&self) -> usize
        ensures { result ≡ length self.now }
    {
        match &self.held {
            // the length of a slice is its size, and no byte is read for it
            Held::Inside { size, bytes } => bytes[..*size as usize].len(),
            Held::Part { last, .. } => *last as usize + 1,
        }
    }

    /// Whether there are no bytes.
    #[inline]
    pub fn is_empty(&self) -> bool
        ensures { result ≡ (length self.now == 0) }
    {
        self.len() == 0
    }

    /// Whether both are the same bytes. Where their sizes differ no byte is read.
    #[inline]
    pub fn is_same(&self, other: &SharedBytes) -> bool
        ensures { result ≡ bytes_eq self.now other.now }
    {
        self.len() == other.len() && self.as_slice() == other.as_slice()
    }
}

/// `size` bytes from a place on of those that a block holds from `first` on, up to the byte that stands
/// `last` places behind it.
fn part_of_part(
    last: u16,
    first: u32,
    block: &Arc<Vec<u8>>,
    start: usize,
    size: usize,
) -> Result<SharedBytes, Memory>
    requires some { 0 < size }
    requires within { start + size ≤ last + 1 }
    requires held { first + last < length (arc_value block.now).items }
    requires small { length (arc_value block.now).items < 2 ^ 32 }
    ensures { IfOk result (λ b. b ≡ take size (drop start (take (last + 1) (drop first (arc_value block.now).items)))) }
{
    let block = Arc::try_clone(block)?;
    Ok(SharedBytes::of_part((size - 1) as u16, first + start as u32, block))
}

/// An array that begins with the first `size` bytes of a slice. What stands behind them is any bytes.
#[inline(always)]
fn front(bytes: &[u8], size: usize) -> [u8; INSIDE_MOST]
    requires within { size ≤ length bytes.now }
    requires fits { size ≤ INSIDE_MOST }
    ensures { take size result ≡ take size bytes.now }
{
    let mut array = [0; INSIDE_MOST];
    if bytes.len() >= INSIDE_MOST {
        array.copy_from_slice(&bytes[..INSIDE_MOST]);
        return array;
    }
    array[..size].copy_from_slice(&bytes[..size]);
    array
}
