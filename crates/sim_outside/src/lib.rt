//! What the program meets of the outside: files to read, and a sink to write to.
//!
//! Who reads takes a [`Files`], and who writes a [`Sink`]. Each has two meanings that its calls are
//! stated by: the bytes that it holds or was given, where it tells them, and a count of faults that
//! never falls. A call fails only where this count rose. [`MemFiles`] and [`MemSink`] keep everything
//! in memory, tell it, and fail at the calls that they are told to.
//!
//! [`RealFiles`] and [`RealSink`] reach the system, and tell nothing of its bytes. They read and write
//! by [`read_to_limit`] and [`write_whole`], which any reader and any writer of the library may be
//! given: where these tell their bytes, so do the answers.
#![tactic(auto)]

pub use files::{FileRefusal, Files};
pub use folder::beside;
pub use mem_files::MemFiles;
pub use mem_sink::MemSink;
pub use reader::read_to_limit;
pub use real_files::RealFiles;
pub use real_sink::RealSink;
pub use sink::{Sink, SinkRefusal};
pub use writer::write_whole;

mod files;
mod folder;
mod mem_files;
mod mem_sink;
mod reader;
mod real_files;
mod real_sink;
mod sink;
mod writer;
