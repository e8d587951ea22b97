use thiserror::Error;

/// Why bytes are no text.
#[derive(Clone, Copy, Debug, PartialEq, Eq, Error)]
pub enum TextError {
    /// There are more than 65,536 bytes.
    #[error("TooLong")]
    TooLong,
    /// There are at most 65,536 bytes, and they are not UTF-8.
    #[error("NotUtf8")]
    NotUtf8,
    /// There is no memory for the text.
    #[error("Memory")]
    Memory,
}
