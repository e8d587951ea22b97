/// What the items of a literal list are.
#[derive(Clone, Copy, Debug)]
pub enum ItemKind {
    /// Texts and `na`.
    Values,
    /// Numbers.
    Numbers,
    /// `true` and `false`.
    Flags,
    /// Byte texts of a fixed width.
    Bytes,
    /// Unicode texts of a fixed width.
    Units,
}
