//! Which invocations reach which by "before", and what a judge may keep in place of all of "before". Definitions stand in
//! `specs/`; each function here is a law about them, and does nothing but call the laws that it rests on.
#![tactic(auto)]

ghost use Rattle.ecf_precedence.specs.Laws.{FreeExactlyWhereAcyclic, OnePairMore, OneStepMore, PlacementByReach, PlacingIsPlacement, ReducedIsBefore, ReducedReachesBefore};

use ecf_verdicts::{cycle_named, free_exactly_where_ordered, test_tells_free};

/// One step more adds exactly its conflicts to "before".
pub fn one_step_more()
    ensures { OneStepMore }
{}

/// A trace is free exactly where "before" has no cycle.
pub fn free_exactly_where_acyclic()
    ensures { FreeExactlyWhereAcyclic }
{
    free_exactly_where_ordered();
    test_tells_free();
    cycle_named();
}

/// The pairs from last writers and readers since reach what "before" reaches.
pub fn reduced_reaches_before()
    ensures { ReducedReachesBefore }
{}

/// Each of these pairs is one of "before".
pub fn reduced_is_before()
    ensures { ReducedIsBefore }
{}

/// The placing of a trace is the placement of its members by "before".
pub fn placing_is_placement()
    ensures { PlacingIsPlacement }
{}

/// A placement depends on reachability alone.
pub fn placement_by_reach()
    ensures { PlacementByReach }
{}

/// What one pair more reaches.
pub fn one_pair_more()
    ensures { OnePairMore }
{}
