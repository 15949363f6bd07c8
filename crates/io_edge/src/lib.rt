//! The edge to the outside: where bytes come from, where they go, and who holds turns.
//!
//! `Source` and `Sink` are the shapes of read(2) and write(2): a call moves some of the bytes, or fails and moves none. Both
//! count their faults, so that a caller can show that a failure was the device's. Ends in memory tell their bytes. The ends of
//! the system are over any reader and writer, and tell what these tell; the toolchain's standard input and outputs tell none, and
//! are the trusted edge of the program.
#![tactic(auto)]

mod edge;
mod gate;
mod memory;
mod standard;
mod word;

pub use edge::{Failed, Sink, Source};
pub use gate::{Gate, OpenGate};
pub use memory::{MemSink, MemSource, NoMemory, QuietSource};
pub use standard::{Reader, StdSink, StdSource, Writer};
pub use word::Word;
