//! Judges the steps of a run: an order for each object that the swaps of neighbouring steps can bring into it, or a veto
//! with the step and the cycle that tell why.
#![tactic(auto)]

mod cycle;
mod membership;
mod object;
mod traces;
mod verdict;

pub use verdict::{Verdict, judge};
