//! Legal swaps on the steps of a trace: one at a place, and those that bring its invocations into an order, one after the other.
#![tactic(auto)]

mod exchange;
mod insertion;
mod ranks;
#[cfg(test)]
mod tests;

pub use exchange::{swap_at, trace_of};
pub use insertion::bring_together;
