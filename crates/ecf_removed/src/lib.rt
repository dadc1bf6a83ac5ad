//! What a commit is worth: the invocations of a committed run on an object can each be run alone, one after the other, and
//! do as they did, so that a method may be thought of as if nothing called back into its object. Definitions stand in
//! `specs/`; each function here is a law about them, and does nothing but call the laws that it rests on.
#![tactic(auto)]

ghost use Rattle.ecf_laws.specs.Laws.{EndsWithWrites, ReadsSeeWrites, UndoneStepsVanish, WritesAreOfSteps};
ghost use Rattle.ecf_verdicts.specs.Laws.{MembersAre, PlacesMembers};
ghost use Rattle.ecf_verdicts.specs.SerialLaws.{CommittedWhereFree};
ghost use Rattle.ecf_removed.specs.Laws.{CallbacksRemoved, EachRepeatsNext, FreeBlocksDoAlike, InvocationsHaveMethods, InvocationsRepeatAlone, LoneRunsGoOn, LoneRunsKeepStore, StepsOnOwnObject, SwapsKeepEnds, SwapsKeepReads, TracesSuffice};

use ecf_laws::{ends_with_writes, reads_see_writes, undone_steps_vanish, writes_are_of_steps};
use ecf_verdicts::{committed_where_free, free_in_blocks, members_are, places_members};

/// Legal swaps keep what each read gives.
pub fn swaps_keep_reads()
    ensures { SwapsKeepReads }
{}

/// Legal swaps keep what each cell holds at the end.
pub fn swaps_keep_ends()
    ensures { SwapsKeepEnds }
{}

/// A free trace, by blocks in its named order, reads the same and ends the same.
pub fn free_blocks_do_alike()
    ensures { FreeBlocksDoAlike }
{
    free_in_blocks();
}

/// What steps do to an object depends on the object's cells alone.
pub fn traces_suffice()
    ensures { TracesSuffice }
{}

/// An invocation that answered and wasn't undone repeats alone what it did, wherever its own steps read as recorded.
pub fn invocations_repeat_alone()
    ensures { InvocationsRepeatAlone }
{}

/// An invocation that answered and wasn't undone is of a method that its object has.
pub fn invocations_have_methods()
    ensures { InvocationsHaveMethods }
{}

/// The steps of an invocation that answered and wasn't undone are on cells of its object.
pub fn steps_on_own_object()
    ensures { StepsOnOwnObject }
{}

/// Further invocations, each run alone, go on from the fields that the earlier ones leave.
pub fn lone_runs_go_on()
    ensures { LoneRunsGoOn }
{}

/// Invocations run alone leave a store a store.
pub fn lone_runs_keep_store()
    ensures { LoneRunsKeepStore }
{}

/// Along the named order each invocation repeats what it did on the fields that those before it left.
pub fn each_repeats_next()
    ensures { EachRepeatsNext }
{
    known_laws();
}

/// The invocations of a committed run on an object do as they did when each is run alone, in the named order.
pub fn callbacks_removed()
    ensures { CallbacksRemoved }
{
    known_laws();
}

// The laws of runs and of verdicts that the theorem rests on.
fn known_laws()
    ensures undone { UndoneStepsVanish }
    ensures ends { EndsWithWrites }
    ensures reads { ReadsSeeWrites }
    ensures writes { WritesAreOfSteps }
    ensures committed { CommittedWhereFree }
    ensures members { MembersAre }
    ensures placed { PlacesMembers }
    ensures blocks { FreeBlocksDoAlike }
{
    undone_steps_vanish();
    ends_with_writes();
    reads_see_writes();
    writes_are_of_steps();
    committed_where_free();
    members_are();
    places_members();
    free_blocks_do_alike();
}
