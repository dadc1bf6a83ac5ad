//! Laws about what a transaction means. Definitions stand in `specs/`; each function here is a law about them, and
//! does nothing.
#![tactic(auto)]

ghost use Rattle.ecf_laws.specs.Laws.{ChargedIsUsed, EndsWithWrites, FuelAddsUp, FuelNeverRises, FuelWithinLimit, MoreTurnsChangeNothing, OutOfFuelUsesAll, ReadsAreStored, ReadsDiffer, ReadsSeeWrites, RunKeepsStore, RunStands, RunsEndLoopsByFuel, SameReadsSameRun, StepsAreCharged, UnansweredLeavesStore, UnansweredWritesNothing, UndoneStepsVanish, WritesAreOfSteps, WritesRise};

/// A run that doesn't answer leaves the store.
pub fn unanswered_leaves_store()
    ensures { UnansweredLeavesStore }
{}

/// A run that doesn't answer writes nothing.
pub fn unanswered_writes_nothing()
    ensures { UnansweredWritesNothing }
{}

/// Every run ends in the store with its writes.
pub fn ends_with_writes()
    ensures { EndsWithWrites }
{}

/// A run uses at most its limit of fuel.
pub fn fuel_within_limit()
    ensures { FuelWithinLimit }
{}

/// A run that runs out of fuel used its whole limit.
pub fn out_of_fuel_uses_all()
    ensures { OutOfFuelUsesAll }
{}

/// Each step of a run was charged as a read at least.
pub fn steps_are_charged()
    ensures { StepsAreCharged }
{}

/// Fuel never rises along any part of a run.
pub fn fuel_never_rises()
    ensures { FuelNeverRises }
{}

/// Where a run doesn't run out of fuel, it used what was charged in its invocations, undone ones among them.
pub fn fuel_adds_up()
    ensures { FuelAddsUp }
{}

/// What was charged in a run's invocations is at most the fuel used.
pub fn charged_is_used()
    ensures { ChargedIsUsed }
{}

/// All numbers of turns above the fuel mean the same loop, where its condition and body never raise the fuel.
pub fn more_turns_change_nothing()
    ensures { MoreTurnsChangeNothing }
{}

/// All numbers of turns above the fuel mean the same loop in each frame of a run.
pub fn runs_end_loops_by_fuel()
    ensures { RunsEndLoopsByFuel }
{}

/// Each step of a run is of one of its invocations, and of none that was undone.
pub fn undone_steps_vanish()
    ensures { UndoneStepsVanish }
{}

/// Each read step has the number of the last write step before it on its cell, else the store's.
pub fn reads_see_writes()
    ensures { ReadsSeeWrites }
{}

/// The writes of a run that answers are the cells of its write steps, with the last number of each.
pub fn writes_are_of_steps()
    ensures { WritesAreOfSteps }
{}

/// What a run read is what its store held.
pub fn reads_are_stored()
    ensures { ReadsAreStored }
{}

/// No cell stands twice among the reads of a run.
pub fn reads_differ()
    ensures { ReadsDiffer }
{}

/// The writes of a run rise by cell.
pub fn writes_rise()
    ensures { WritesRise }
{}

/// A store after a run is a store.
pub fn run_keeps_store()
    ensures { RunKeepsStore }
{}

/// Two stores that agree on what a run reads give the same run.
pub fn same_reads_same_run()
    ensures { SameReadsSameRun }
{}

/// A run, kept, stands for the run of its transaction on every store that agrees with its reads.
pub fn run_stands()
    ensures { RunStands }
{}
