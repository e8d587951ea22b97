use thiserror::Error;

/// Why a text is not made.
#[derive(Clone, Copy, Debug, PartialEq, Eq, Error)]
pub enum EditError {
    /// It would have more than 65,536 bytes.
    #[error("TooLong")]
    TooLong,
    /// There is no memory for it.
    #[error("Memory")]
    Memory,
}
