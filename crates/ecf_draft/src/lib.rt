//! What a worker makes of a transaction on a snapshot: a draft, which is its run, and then what is judged of it. A row that is run
//! while nobody else changes the store is run and judged in one call.
#![tactic(auto)]

mod decisions;
mod drafting;
mod drafts;
mod judging;

pub use decisions::{Judged, decide};
pub use drafting::draft;
pub use drafts::{Draft, Work};
pub use judging::{Decision, run_and_judge};
