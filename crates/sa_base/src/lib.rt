//! What every layer above stands on: want of memory, lists inside public values, sources and sinks
//! of bytes, and the gate of a call.
#![tactic(auto)]

mod gate;
mod mem_sink;
mod mem_source;
mod memory;
mod reader_source;
mod sequence;
mod sink;
mod source;
mod stats;
mod writer_sink;

pub use gate::{FreeGate, Gate};
pub use mem_sink::MemSink;
pub use mem_source::MemSource;
pub use memory::Memory;
pub use reader_source::{ReaderSource, StdSource};
pub use sequence::Sequence;
pub use sink::{Sink, Took};
pub use source::{Got, Source};
pub use stats::Stats;
pub use writer_sink::{StdSink, WriterSink};

#[cfg(test)]
mod tests;
