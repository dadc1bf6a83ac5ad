//! Stores in memory: the map of cells that one thread runs on, writes laid over a store, and a contract's store
//! before its first transaction.
#![tactic(auto)]

mod heap;
mod initial;
mod overlay;

pub use heap::Heap;
pub use initial::genesis;
pub use overlay::Overlay;
