ghost use Rattle.std.specs.Prelude.{◌≡◌, ◌+◌, ◌-◌, ◌≤◌, ◌<◌, ◌^◌, ◌++◌, length, replicate, vec_len, vec_capacity};
ghost use Rattle.sa_arena.specs.Buffers.{written};
ghost use Rattle.sa_arena.specs.Extents.{prefix_size, extent_for};
ghost use Rattle.sa_arena.specs.Images.{prefix_bytes, padded, extent_image};

/// The bytes of the prefix of a capacity: one, or a word of eight where one does not hold it.
#[tactic(auto, unfolding(crate::specs::Extents::prefix_size))]
pub fn prefix_len(capacity: u64) -> u64
    ensures { result ≡ prefix_size capacity }
{
    if capacity <= 255 { 1 } else { 8 }
}

/// Zeros behind the bytes of a vector up to a size, for which it has the room.
pub fn fill(bytes: &mut Vec<u8>, size: usize)
    requires more { vec_len bytes.old ≤ size }
    requires room { size ≤ vec_capacity bytes.old }
    ensures { bytes.new.items ≡ bytes.old.items ++ replicate (size - vec_len bytes.old) 0 }
{
    match bytes.resize(size, 0) {
        Ok(()) => {}
        Err(_) => unreachable!(),
    }
}

/// Writes bytes from a place on.
pub fn write(bytes: &mut [u8], at: usize, new: &[u8])
    requires { at + length new.now ≤ length bytes.old }
    ensures { bytes.new ≡ written bytes.old at new.now }
{
    bytes[at..at + new.len()].copy_from_slice(new);
}

/// Writes so many zeros from a place on.
pub fn write_zeros(bytes: &mut [u8], at: usize, size: usize)
    requires { at + size ≤ length bytes.old }
    ensures { bytes.new ≡ written bytes.old at (replicate size 0) }
{
    bytes[at..at + size].fill(0);
}

/// Writes a capacity as one byte, or as a word of eight where one does not hold it.
#[tactic(auto, unfolding(crate::specs::Extents::prefix_size, crate::specs::Images::prefix_bytes))]
pub fn write_prefix(bytes: &mut [u8], at: usize, capacity: u64)
    requires { at + prefix_size capacity ≤ length bytes.old }
    ensures { bytes.new ≡ written bytes.old at (prefix_bytes capacity) }
{
    if capacity <= 255 {
        write(bytes, at, &[capacity as u8]);
    } else {
        write(bytes, at, &capacity.to_le_bytes());
    }
}

/// Writes a text, and zeros up to a capacity.
pub fn write_padded(bytes: &mut [u8], at: usize, capacity: usize, text: &[u8])
    requires within { at + capacity ≤ length bytes.old }
    requires fits { length text.now ≤ capacity }
    ensures { bytes.new ≡ written bytes.old at (padded capacity text.now) }
{
    write(bytes, at, text);
    write_zeros(bytes, at + text.len(), capacity - text.len());
}

/// Writes the extent of a text: its prefix, and the text, which fills it.
pub fn write_extent(bytes: &mut [u8], at: usize, text: &[u8])
    requires { at + (prefix_size (length text.now) + length text.now) ≤ length bytes.old }
    ensures { bytes.new ≡ written bytes.old at (extent_image (extent_for (length text.now) text.now)) }
{
    let size = text.len() as u64;
    write_prefix(bytes, at, size);
    write(bytes, at + prefix_len(size) as usize, text);
}
