//! What a veto is, as swaps on whole lists of steps, and the laws by which it is decided. Definitions stand in
//! `specs/`; each function here is a law about them, or a case worked out, and does nothing.
#![tactic(auto)]

ghost use Rattle.ecf_verdicts.specs.Cases.{FirstReaderAgain, StartOutside, TwoCycles, TwoObjects, TwoReaders};
ghost use Rattle.ecf_verdicts.specs.Laws.{ApprovesFree, ApprovesOrders, AtIsShortest, BeforeExactlyWhere, BeforeIsOfMembers, CycleNamed, FirstPartsFree, FreeExactlyWhereOrdered, FreeExactlyWherePlaced, FreeInBlocks, MembersAre, MembersPlacedOrRest, MovesSuffice, NextIsLeast, PlacedKeepsBefore, PlacesMembers, RestIsStuck, RestRises, SingleApproved, SingleFree, StepIsLeast, SwapsIntoOrder, SwapsKeepBefore, SwapsKeepInvocations, SwapsKeepWrites, SwapsPermute, SwapsUndone, TestTellsFree, VetoedExactlyWhere, VetoesExplain, VetoesLeast};
ghost use Rattle.ecf_verdicts.specs.SerialLaws.{AlongEach, AlongPlaces, BarredChangesNothing, CommitKeepsEnd, CommittedWhereFree, FirstPartsLegal, LegalWhenWhole, OnlyCommitChanges, ReceiptEach, SerialAddsOne, SerialBegins, SerialGoesOn, SerialNeverBars, VetoedWhereNotFree};

/// Swaps can bring the steps of each invocation together exactly where all invocations can be placed.
pub fn free_exactly_where_placed()
    ensures { FreeExactlyWherePlaced }
{}

/// A trace is free exactly where its invocations can be ranked so that each "before" goes up.
pub fn free_exactly_where_ordered()
    ensures { FreeExactlyWhereOrdered }
{}

/// The test of a whole placing says which traces are free.
pub fn test_tells_free()
    ensures { TestTellsFree }
{}

/// Legal swaps bring a free trace into the blocks of its invocations in their named order.
pub fn free_in_blocks()
    ensures { FreeInBlocks }
{}

/// A trace of one invocation is free.
pub fn single_free()
    ensures { SingleFree }
{}

/// Each first part of a free trace is free.
pub fn first_parts_free()
    ensures { FirstPartsFree }
{}

/// Legal swaps only move steps.
pub fn swaps_permute()
    ensures { SwapsPermute }
{}

/// Legal swaps keep the order of each invocation's steps.
pub fn swaps_keep_invocations()
    ensures { SwapsKeepInvocations }
{}

/// Legal swaps keep the order of each cell's writes.
pub fn swaps_keep_writes()
    ensures { SwapsKeepWrites }
{}

/// Legal swaps keep which invocation is before which.
pub fn swaps_keep_before()
    ensures { SwapsKeepBefore }
{}

/// Legal swaps can be undone by legal swaps.
pub fn swaps_undone()
    ensures { SwapsUndone }
{}

/// An order that keeps what is before what is reached by as many legal swaps as pairs of steps are out of it.
pub fn swaps_into_order()
    ensures { SwapsIntoOrder }
{}

/// An invocation is before another exactly where two places of the trace say so.
pub fn before_exactly_where()
    ensures { BeforeExactlyWhere }
{}

/// The members of a trace are the invocations that have steps in it, rising.
pub fn members_are()
    ensures { MembersAre }
{}

/// Only invocations that have steps are before others.
pub fn before_is_of_members()
    ensures { BeforeIsOfMembers }
{}

/// The placing lists distinct invocations that have steps.
pub fn places_members()
    ensures { PlacesMembers }
{}

/// Whatever is before a placed invocation is placed earlier.
pub fn placed_keeps_before()
    ensures { PlacedKeepsBefore }
{}

/// Each invocation that has steps is placed or in the rest.
pub fn members_placed_or_rest()
    ensures { MembersPlacedOrRest }
{}

/// The placing ends only where nothing more can be placed.
pub fn rest_is_stuck()
    ensures { RestIsStuck }
{}

/// What cannot be placed rises.
pub fn rest_rises()
    ensures { RestRises }
{}

/// The next to be placed is the least that may be.
pub fn next_is_least()
    ensures { NextIsLeast }
{}

/// The walk goes to the least that is before the present one.
pub fn step_is_least()
    ensures { StepIsLeast }
{}

/// The walk never ends for want of moves.
pub fn moves_suffice()
    ensures { MovesSuffice }
{}

/// The named cycle of a trace that isn't free is a cycle, begun with its least member.
pub fn cycle_named()
    ensures { CycleNamed }
{}

/// A veto's number of steps is that of the shortest first part that isn't free.
pub fn at_is_shortest()
    ensures { AtIsShortest }
{}

/// Steps of one invocation are approved, with no orders.
pub fn single_approved()
    ensures { SingleApproved }
{}

/// A veto names the least object whose trace isn't free.
pub fn vetoes_least()
    ensures { VetoesLeast }
{}

/// A veto's cycle and number of steps are those of its object's trace.
pub fn vetoes_explain()
    ensures { VetoesExplain }
{}

/// An approval lists the named orders, objects rising.
pub fn approves_orders()
    ensures { ApprovesOrders }
{}

/// An approval means that the trace of each object is free.
pub fn approves_free()
    ensures { ApprovesFree }
{}

/// A veto is given exactly where the trace of some object isn't free.
pub fn vetoed_exactly_where()
    ensures { VetoedExactlyWhere }
{}

/// A transaction is vetoed exactly where its run answers and swaps can't bring the steps on some object together.
pub fn vetoed_where_not_free()
    ensures { VetoedWhereNotFree }
{}

/// A transaction is committed exactly where its run answers and the trace of each object is free.
pub fn committed_where_free()
    ensures { CommittedWhereFree }
{}

/// A committed transaction leaves the store of its run's end.
pub fn commit_keeps_end()
    ensures { CommitKeepsEnd }
{}

/// Any other transaction leaves the store as it was.
pub fn only_commit_changes()
    ensures { OnlyCommitChanges }
{}

/// A barred transaction isn't committed and isn't vetoed, and leaves the store as it was.
pub fn barred_changes_nothing()
    ensures { BarredChangesNothing }
{}

/// A serial run bars no transaction.
pub fn serial_never_bars()
    ensures { SerialNeverBars }
{}

/// A serial run begins at the contract's initial values.
pub fn serial_begins()
    ensures { SerialBegins }
{}

/// One more transaction adds its receipt on the last store.
pub fn serial_adds_one()
    ensures { SerialAddsOne }
{}

/// Further transactions go on from the store that the earlier ones leave.
pub fn serial_goes_on()
    ensures { SerialGoesOn }
{}

/// A serial run has one receipt for each transaction.
pub fn receipt_each()
    ensures { ReceiptEach }
{}

/// Along all places stand the transactions themselves.
pub fn along_places()
    ensures { AlongPlaces }
{}

/// Along a journal stands one transaction for each place.
pub fn along_each()
    ensures { AlongEach }
{}

/// Each first part of a legal journal is legal so far.
pub fn first_parts_legal()
    ensures { FirstPartsLegal }
{}

/// A journal so far that has all places is legal.
pub fn legal_when_whole()
    ensures { LegalWhenWhole }
{}

/// Two readers and then a writer are approved.
pub fn two_readers_case()
    ensures { TwoReaders }
{}

/// The earlier of two readers counts too.
pub fn first_reader_again_case()
    ensures { FirstReaderAgain }
{}

/// Of two objects the least is named.
pub fn two_objects_case()
    ensures { TwoObjects }
{}

/// Of two cycles that meet the one is named that the walk from the least meets first.
pub fn two_cycles_case()
    ensures { TwoCycles }
{}

/// The least of those that cannot be placed need not be in the cycle.
pub fn start_outside_case()
    ensures { StartOutside }
{}
