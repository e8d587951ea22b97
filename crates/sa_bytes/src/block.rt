ghost use Rattle.std.specs.Prelude.{◌≡◌, ◌+◌, ◌≤◌, ◌<◌, ◌^◌, length, take, drop, IfOk};
ghost use Rattle.sa_bytes.specs.Limits.{most_shared};

use crate::shared_bytes::{INSIDE_MOST, SharedBytes};
use sa_base::Memory;
use std::alloc::Global;
use std::marker::Model;
use std::sync::Arc;

/// Bytes of which values share parts: many values are made from one block with no allocation for each.
/// Contracts see the list of bytes.
#[derive(Debug, Drop)]
pub struct Block {
    bytes: Arc<Vec<u8>>,
}

impl Model for Block {
    ghost use Rattle.std.specs.Prelude.{List, ℕ, ◌<◌, ◌^◌, length};
    ghost use Rattle.std.specs.Arc.{arc_value};

    ghost Value = { List ℕ };

    ghost view = { λ b. (arc_value b.bytes).items };

    ghost invariant = { λ b. length (arc_value b.bytes).items < 2 ^ 32 };
}

impl Block {
    /// A block of these bytes, less than 4 GiB. It takes one allocation, for the count; `Memory` where
    /// it is refused.
    #[inline]
    pub fn new(alloc: Global, bytes: Vec<u8>) -> Result<Block, Memory>
        requires { length bytes.items < 2 ^ 32 }
        ensures { IfOk result (λ b. b ≡ bytes.items) }
    {
        let bytes = Arc::new(alloc, bytes)?;
        Ok(Block { bytes })
    }

    /// `size` of its bytes from a place on, at most 65,536. It takes no memory: up to 14 bytes are
    /// copied, and of more the block counts one part; `Memory` means that the count is full.
    #[inline]
    pub fn part(&self, start: usize, size: usize) -> Result<SharedBytes, Memory>
        requires within { start + size ≤ length self.now }
        requires few { size ≤ most_shared }
        ensures { IfOk result (λ b. b ≡ take size (drop start self.now)) }
    {
        if size <= INSIDE_MOST {
            return Ok(SharedBytes::inside(&self.bytes.as_slice()[start..], size));
        }
        let block = Arc::try_clone(&self.bytes)?;
        Ok(SharedBytes::of_part((size - 1) as u16, start as u32, block))
    }
}
