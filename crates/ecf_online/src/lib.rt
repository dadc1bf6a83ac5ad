//! Watches the steps of one object while they come in: what reaches what by "before", and the first step with which
//! swaps can no longer bring the steps of each invocation together.
#![tactic(auto)]

mod limits;
mod monitor;
mod pairs;
mod reach;
mod room;
mod seen;
mod watch;

pub use limits::MAX_STEPS;
pub use monitor::Monitor;
