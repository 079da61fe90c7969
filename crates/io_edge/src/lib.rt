//! The outside of the replayer: the bytes that it reads, the bytes that it writes and the files.
#![tactic(auto)]

mod errors;
mod files;
mod folder;
mod mem_files;
mod memory;
mod real;
mod sink;
mod source;
mod sure;
mod whole;

pub use errors::{EdgeErr, Failed, ReadErr};
pub use files::{Fetched, Files};
pub use mem_files::MemFiles;
pub use memory::{MemSink, MemSource};
pub use real::{DirFiles, ReadSource, WriteSink};
pub use sink::Sink;
pub use source::Source;
pub use sure::{SureFiles, SureSink, SureSource};
pub use whole::{append_all, read_all, write_all};
