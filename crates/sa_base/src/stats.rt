/// Statistics of one allocator: the arena's cursor, the bytes of its live and of its dead extents,
/// prefixes included, and the number of texts that are kept outside the arena.
#[derive(Clone, Copy, Debug, PartialEq, Eq)]
pub struct Stats {
    pub cursor: u64,
    pub live: u64,
    pub dead: u64,
    pub outside: u64,
}
