//! Where bytes come in and go out: sources that you pull from, sinks that you push to, and the calls that read a source
//! to its end and write a complete text.
//!
//! Contracts can see the bytes of some sources and sinks (`left`, `taken`), such as those in memory. Every source and
//! sink keeps a count of faults that never falls, and a call returns `Failed` only if that count rose.
#![tactic(auto)]

mod calls;
mod file_source;
pub mod lines;
mod loading;
mod mem_sink;
mod mem_source;
pub mod page;
mod sink;
mod source;
mod streams;
mod sure;

pub use file_source::FileSource;
pub use loading::{LoadError, STREAM_ROOM, load};
pub use mem_sink::MemSink;
pub use mem_source::MemSource;
pub use sink::{Sink, push_all};
pub use source::{FIXED_KEY, Failed, Source, draw_key};
pub use streams::{ReadSource, WriteSink};
pub use sure::{SureSink, SureSource};
