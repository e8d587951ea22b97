use thiserror::Error;

/// Why bytes are no script.
#[derive(Clone, Copy, Debug, PartialEq, Eq, Error)]
pub enum ScriptFault {
    /// The least faulty line, and the number of its first fault.
    #[error("Fault")]
    Fault { code: u8, line: u64 },
    /// There is no memory for the script.
    #[error("Memory")]
    Memory,
}
