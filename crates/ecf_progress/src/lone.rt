//! What an invocation alone came to.

use ecf_lang::cell::Cell;
use ecf_lang::run::{Outcome, Step};
use sqlite_items::Items;

/// The run of an invocation by itself.
#[derive(Debug, Drop)]
pub struct Lone {
    pub outcome: Outcome,
    /// Its steps in order, under the invocation's number.
    pub steps: Items<Step>,
    /// The written cells with their last values, rising; none unless it answered.
    pub writes: Items<(Cell, u128)>,
}
