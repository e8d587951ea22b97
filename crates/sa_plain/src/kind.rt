/// What a plain array holds. A width is from 1 to 256.
#[derive(Clone, Copy, Debug, PartialEq, Eq)]
pub enum PlainKind {
    /// Integers: NumPy's `int64`.
    Int,
    /// Flags: NumPy's `bool`.
    Bool,
    /// Byte texts of this many bytes: NumPy's `S`.
    Bytes(u16),
    /// Unicode texts of this many units of 32 bits: NumPy's `U`.
    Fixed(u16),
}
