//! Bytes in and bytes out, in pieces; each call may fail.
//!
//! A [`Source`] gives bytes and a [`Sink`] takes them. Each counts its faults, so that a caller can
//! prove that it reports a fault only if there was one. [`MemorySource`] and [`MemorySink`] hold
//! their bytes in memory and fail at the calls that they are told to; [`StdSource`] and [`StdSink`]
//! stand over a reader and a writer of the standard library. [`BufferedSink`] gathers what it is given, so that the sink
//! behind it gets few and large pieces. [`read_all`] reads a source to its end, or past a limit.
#![tactic(auto)]

mod all_bytes;
mod buffered_sink;
mod calls;
mod memory_sink;
mod memory_source;
mod no_memory;
mod sink;
mod source;
mod std_sink;
mod std_source;

pub use all_bytes::{Unread, read_all};
pub use buffered_sink::{BufferedSink, Flushed};
pub use memory_sink::MemorySink;
pub use memory_source::MemorySource;
pub use no_memory::NoMemory;
pub use sink::{Sink, Took};
pub use source::{Got, Source};
pub use std_sink::StdSink;
pub use std_source::StdSource;
