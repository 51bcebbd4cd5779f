//! What the program reads from and writes to: sources, sinks and shelves of files, with their failures.
#![tactic(auto)]

mod adapters;
mod calls;
mod failures;
mod memory_shelf;
mod memory_sink;
mod memory_source;
mod null_sink;
mod safe_shelf;
mod safe_source;
mod shelf;
mod sink;
mod source;

pub use adapters::{FileShelf, ReaderSource, StdinSource, StdoutSink, WriterSink};
pub use calls::Calls;
pub use failures::{Failed, LoadStop, ReadStop};
pub use memory_shelf::MemShelf;
pub use memory_sink::MemSink;
pub use memory_source::MemSource;
pub use null_sink::NullSink;
pub use safe_shelf::SafeShelf;
pub use safe_source::SafeSource;
pub use shelf::Shelf;
pub use sink::{Sink, write_all};
pub use source::{Source, read_all};
