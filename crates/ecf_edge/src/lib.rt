//! The edge of the host: what it reads, writes and fetches, as traits whose contracts say what is known of the bytes
//! and count the faults, and objects in memory that stand for the outside in tests.
#![tactic(auto)]

mod gate;
mod plan;
mod shelf;
mod sink;
mod source;

pub use gate::{Gate, NeverQuit, OpenGate, Point, Quit};
pub use plan::count_up;
pub use shelf::{Fetch, MemShelf, Shelf, SureShelf};
pub use sink::{MemSink, Sink, SureSink, WriteFault, put_all};
pub use source::{Ending, Failed, Incomplete, MemSource, Reading, Source, SureSource, read_all};
