//! The outside: files that are read, sinks that are written to, and the gate that a running plant passes; in memory and for real.
#![tactic(auto)]

mod count;
mod files;
mod gate;
mod host;
mod mem_files;
mod mem_sink;
mod sink;

pub use files::{Files, HeldFile, ReadRefusal};
pub use gate::{Gate, OpenGate};
pub use host::{HostErr, HostFiles, HostOut, HostSink};
pub use mem_files::{MemFiles, SureFiles};
pub use mem_sink::MemSink;
pub use sink::{Sink, SinkFailed};
