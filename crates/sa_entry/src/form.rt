/// What a slot says: where its text lies.
#[derive(Clone, Copy, Debug, PartialEq, Eq)]
pub enum Form {
    /// Never written: it reads as the empty text.
    Fresh,
    /// A text of at most 15 bytes, inside the slot.
    Inline { size: u8 },
    /// A text of 16 to 65,536 bytes in the arena, from the byte `at` on; `long` where the prefix in
    /// front of it is a word, and not a byte.
    Arena { at: u64, size: u64, long: bool },
    /// A text of 16 to 65,536 bytes outside the arena, under a key.
    Outside { key: u64, size: u64 },
    /// A missing value.
    Missing,
}
