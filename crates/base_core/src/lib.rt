//! Texts, places, and what stands outside: files that are read and a sink that is written.
#![tactic(auto)]

mod asked;
mod device;
mod held;
mod host;
pub mod limits;
mod memory;
mod names;
mod place;
mod reading;
mod sinks;
mod sure;
mod text;
mod turns;

pub use device::{Failed, Files, OpenFault, Sink};
pub use host::{HostFiles, HostSink};
pub use memory::MemoryFiles;
pub use names::Names;
pub use place::{LineAt, Place};
pub use reading::{ReadFault, read_file};
pub use sinks::MemorySink;
pub use sure::SureFiles;
pub use text::Text;

/// Want of memory: the one refusal that any call that allocates may give.
pub type NoMemory = std::alloc::AllocError;
