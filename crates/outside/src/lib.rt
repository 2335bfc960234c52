//! What a program reads and writes through: files that are read by name, piece after piece, and a sink
//! that takes a text, piece after piece.
//!
//! Two traits say what a call may rely on. [`Files`] gives the bytes of a named file, [`Sink`] takes bytes,
//! and each counts its faults, so that a failure is answered only where the outside failed. [`read_file`]
//! and [`send`] are the two ways in which they are used. The files and sinks in memory say
//! which bytes they hold; those of the operating system say nothing of content.
//!
//! It knows nothing of C, of what the bytes mean or of reports.
#![tactic(auto)]

mod copying;
mod faults;
mod files;
mod memory_files;
mod memory_sink;
mod os_files;
mod os_sink;
mod reading;
mod sending;
mod sink;
mod steady;

pub use files::{Began, Files, Taken};
pub use memory_files::{MemoryFiles, NamedFile};
pub use memory_sink::MemorySink;
pub use os_files::OsFiles;
pub use os_sink::OsSink;
pub use reading::{Reading, read_file};
pub use sending::send;
pub use sink::{Given, Sink};
pub use steady::{SteadyFiles, SteadySink};
