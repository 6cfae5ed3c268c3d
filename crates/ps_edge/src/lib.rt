//! Where bytes come from, and where they go.
//!
//! A source gives the bytes of a text piece by piece, a sink takes them piece by piece, and either may fail at a call and
//! go on at the next. Both stand here in memory, for tests and for callers that hold the bytes, and over the readers and
//! writers of std.
#![tactic(auto)]

mod drop_sink;
mod gather_sink;
mod memory_source;
mod source;
mod std_io;

pub use drop_sink::DropSink;
pub use gather_sink::GatherSink;
pub use memory_source::MemorySource;
pub use ps_base::{MemorySink, Sink, SinkFault, Taken, write_all};
pub use source::{Piece, Source, TextFault, read_text};
pub use std_io::{ReaderSource, WriterSink};
