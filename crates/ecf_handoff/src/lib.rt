//! A queue that hands items from thread to thread. Each thread owns a pass, which knows its share of the queue and the
//! items that went through its own calls, each with its place; the pass with the whole share knows that what was handed in
//! is, in order, what was taken and what is left. It is told in pictures in docs/threads.md.
#![tactic(auto)]

mod account;
mod handoff;
mod job;
mod limits;

pub use account::{Account, HandoffRule, Pass};
pub use handoff::Handoff;
pub use job::Job;
pub use limits::{PLACES, WHOLE_SHARE};
