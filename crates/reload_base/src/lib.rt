//! Lists that say when memory is missing, and the outside as traits: sources, sinks and airs.
#![tactic(auto)]

mod air;
mod calls;
mod copy;
mod list;
mod memory_air;
mod memory_sink;
mod memory_source;
mod no_memory;
mod reading;
mod room;
mod sink;
mod source;
mod std_sink;
mod std_source;
mod writing;

pub use air::{Air, AirFrame, Got, Sent};
pub use calls::Calls;
pub use copy::TryCopy;
pub use list::{Bytes, List};
pub use memory_air::MemoryAir;
pub use memory_sink::MemorySink;
pub use memory_source::MemorySource;
pub use no_memory::NoMemory;
pub use reading::{MAX_INPUT, ReadError, read_all};
pub use room::Room;
pub use sink::{Sink, Wrote};
pub use source::{Source, Took};
pub use std_sink::StdSink;
pub use std_source::StdSource;
pub use writing::{WriteError, write_all};
