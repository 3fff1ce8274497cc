//! Where bytes come from and where they go: sources and sinks that count their faults, the calls that read
//! and write all, doubles in memory for tests, a sink that counts, and adapters over std's readers and writers.
#![tactic(auto)]

mod lanes;
mod memory_sink;
mod memory_source;
mod reading;
mod sink;
mod source;
mod standard;
mod tally;
mod writing;

pub use memory_sink::MemorySink;
pub use memory_source::MemorySource;
pub use reading::{ReadStop, read_all};
pub use sink::Sink;
pub use source::{Failed, Source};
pub use standard::{StdSink, StdSource};
pub use tally::Tally;
pub use wf_words::NoMemory;
pub use writing::{WriteStop, write_all};
