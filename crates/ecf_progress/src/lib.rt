//! What a run has so far: its state, with what its open tries go back to, and the numbers of its open frames.
#![tactic(auto)]

mod frame;
mod lone;
mod reads;
mod segments;
mod stack;
mod state;

pub use frame::OpenFrame;
pub use lone::Lone;
pub use segments::Segments;
pub use stack::Stack;
pub use state::RunState;
