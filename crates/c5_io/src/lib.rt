//! Sources and sinks of bytes that count their faults, in memory and over std's readers and
//! writers.
#![tactic(auto)]

mod adapters;
mod errors;
mod gate;
mod memory;
mod sink;
mod source;
#[cfg(test)]
mod tests;
mod whole;

pub use adapters::{StdSink, StdSource};
pub use errors::{Failed, InFault};
pub use gate::{Gate, OpenGate, Role};
pub use memory::{MemorySink, MemorySource, PlainSource};
pub use sink::Sink;
pub use source::Source;
pub use whole::{read_all, write_all};
