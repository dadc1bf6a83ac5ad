//! Reads the events of a schedule.
#![tactic(auto)]

mod line;
mod read;
mod reader;

pub use read::read_events;
