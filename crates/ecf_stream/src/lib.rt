//! Reads a stream: its lines, in whatever pieces they come, what each says, and the transactions of the whole, so many at a time.
#![tactic(auto)]

mod fault;
pub mod laws;
mod line;
mod line_reader;
mod lookup;
mod number;
mod saying;
mod stream_reader;

pub use fault::StreamFault;
pub use line::{read_tx, read_tx_by};
pub use line_reader::{Fed, LineReader};
pub use lookup::Lookup;
pub use stream_reader::{Part, READ_BYTES, StreamReader};
