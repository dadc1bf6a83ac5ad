//! All pairs of "before" of one trace, as rows of bits and as a list, found in one pass over its steps.
#![tactic(auto)]

ghost use Rattle.ecf_conflict.specs.Laws.{NumbersAreMembers, PairsAreBefore, PlacementIsPlacing};

mod edges;
mod least;
mod members;
mod numbering;
mod seen;

use ecf_precedence::placing_is_placement;
use ecf_verdicts::{before_is_of_members, members_are};
pub use edges::edges_of;
pub use least::least_before;
pub use members::members_of;
pub use numbering::{number_cell, number_in_room};
pub use seen::rows_before;

/// The numbers below a bound that have steps are the members.
pub fn numbers_are_members()
    ensures { NumbersAreMembers }
{
    members_are();
}

/// The pairs that `edges_of` gives join exactly what "before" joins.
pub fn pairs_are_before()
    ensures { PairsAreBefore }
{
    before_is_of_members();
}

/// So `least_order` of what `edges_of` gives is the placing of the trace.
pub fn placement_is_placing()
    ensures { PlacementIsPlacing }
{
    pairs_are_before();
    placing_is_placement();
}
