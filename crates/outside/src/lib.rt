//! The outside: stores of named files and sinks of bytes, as traits, with those of memory and those of the machine.
//!
//! Each counts its faults, and each may say what it holds. Over those that do (`MemFiles`, `MemSink`) the clauses of a
//! caller reach from the bytes of a file to the bytes of the output.
#![tactic(auto)]

mod files;
mod kept_files;
mod memory_files;
mod memory_sink;
mod real_files;
mod real_sink;
mod sink;
mod sure_files;
mod sure_sink;
mod writing;

pub use files::{Files, LoadFault};
pub use kept_files::{KeptFiles, KeptTexts};
pub use memory_files::MemFiles;
pub use memory_sink::MemSink;
pub use real_files::RealFiles;
pub use real_sink::RealSink;
pub use sink::{Sink, SinkFault};
pub use sure_files::SureFiles;
pub use sure_sink::SureSink;
pub use writing::write_text;
