/// What a load answers: a missing value, or a text by its UTF-8, lent.
#[derive(Clone, Copy, Debug, PartialEq, Eq)]
pub enum Seen<'a> {
    /// The value is missing.
    Missing,
    /// The bytes of the value's text.
    Bytes(&'a [u8]),
}
