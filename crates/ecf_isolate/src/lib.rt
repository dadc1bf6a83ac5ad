//! The invocations of a committed run on an object, each run alone: what callbacks removed means for a program that calls.
#![tactic(auto)]

mod alone;

pub use alone::{Alone, AloneRun, run_alone};
