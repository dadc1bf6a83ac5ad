//! The commit book: what it is, what each call does to it, and what its history says. Definitions stand in `specs/`;
//! each function here is a law about them, and does nothing but call the laws that it rests on.
#![tactic(auto)]

ghost use Rattle.ecf_laws.specs.Laws.{RunKeepsStore, RunStands, SameReadsSameRun};
ghost use Rattle.ecf_verdicts.specs.SerialLaws.{LegalWhenWhole};
ghost use Rattle.ecf_core.specs.Drafted.{DraftIsJudged, RunIsDrafted};
ghost use Rattle.ecf_core.specs.Laws.{CommitIsRight, EachCallIsLegal, EmptyExactlyWhere, EveryListOfEvents, ExtendKeeps, FewEntries, FinishEnds, FullExactlyWhere, JournalGrows, JournalIsLegal, LedgerIsSerial, NoWatchIsSerial, OneClaimed, OverOnlyWhere, OverWithRowsLeft, ReceiptsGrow, RowsAgree, StoreIsStore, ThreeStales, TicketsRise};
ghost use Rattle.ecf_core.specs.Replies.{ClaimExactlyWhere, CommitExactlyWhere, HereExactlyWhere, PastLastAddsNothing, ReclaimFreesAll, RefusedChangesNothing, RefusedExactlyWhere, ReleaseExactlyWhere};
ghost use Rattle.ecf_core.specs.Rounds.{EventsAreDue, LastStaleIsLogged, RoundsChain};
ghost use Rattle.ecf_core.specs.Seats.{UnsharedBothWays, CallKeepsUnshared, CallKeepsSeat, EachCallAddsOne, JoinKeepsUnshared, JoinKeepsSeats, SplitKeepsSeats};
ghost use Rattle.ecf_core.specs.Watches.{CountsStayWithin, FirstNoIsNamed};

use ecf_laws::{run_keeps_store, run_stands, same_reads_same_run};
use ecf_verdicts::legal_when_whole;

pub mod book;
pub mod event;
pub mod watch;

/// With no watch, the serial run under watches is the serial run.
pub fn no_watch_is_serial()
    ensures { NoWatchIsSerial }
{}

/// The journal is legal so far.
pub fn journal_is_legal()
    ensures { JournalIsLegal }
{}

/// Receipts, store and watches are those of the journal's transactions, one after the other.
pub fn ledger_is_serial()
    ensures { LedgerIsSerial }
{}

/// The store that entries lead to is a store.
pub fn store_is_store()
    ensures { StoreIsStore }
{
    run_keeps_store();
}

/// A row is Done exactly at its number of the journal.
pub fn rows_agree()
    ensures { RowsAgree }
{}

/// At most one row of a submitter is Claimed.
pub fn one_claimed()
    ensures { OneClaimed }
{}

/// The tickets given are 1, 2, and so on, each once.
pub fn tickets_rise()
    ensures { TicketsRise }
{}

/// A ticket has at most three stale commits.
pub fn three_stales()
    ensures { ThreeStales }
{}

/// A row has at most 21 entries.
pub fn few_entries()
    ensures { FewEntries }
{}

/// Each call adds legal entries.
pub fn each_call_is_legal()
    ensures { EachCallIsLegal }
{}

/// After `finish` all rows are Done, and the journal is a whole legal one.
pub fn finish_ends()
    ensures { FinishEnds }
{
    legal_when_whole();
}

/// Further entries only add to the journal, at its end.
pub fn journal_grows()
    ensures { JournalGrows }
{}

/// Further transactions change nothing but the rows that they add.
pub fn extend_keeps()
    ensures { ExtendKeeps }
{}

/// A claim answers Over only where each row that isn't Done waits for one that was claimed four times.
pub fn over_only_where()
    ensures { OverOnlyWhere }
{}

/// Over doesn't say that each row was claimed four times: a later row of a submitter waits for an earlier one.
pub fn over_with_rows_left()
    ensures { OverWithRowsLeft }
{}

/// The run of a transaction that fits, kept, is drafted under the contract.
pub fn run_is_drafted()
    ensures { RunIsDrafted }
{
    run_stands();
    same_reads_same_run();
}

/// What is judged of a draft is drafted under each contract that the draft was.
pub fn draft_is_judged()
    ensures { DraftIsJudged }
{}

/// A commit of what was drafted under the contract, whose reads agree, places its receipt and leaves its next store.
pub fn commit_is_right()
    ensures { CommitIsRight }
{}

/// For every list of events the journal is the one that the book came with, then what the replies placed, then the rest.
pub fn every_list_of_events()
    ensures { EveryListOfEvents }
{}

/// Each call of a seat adds at most one entry.
pub fn each_call_adds_one()
    ensures { EachCallAddsOne }
{}

/// A call leaves a seat a seat, whatever others did between.
pub fn call_keeps_seat()
    ensures { CallKeepsSeat }
{}

/// The queue refuses a draft exactly where it is full.
pub fn full_exactly_where()
    ensures { FullExactlyWhere }
{}

/// A claim answers Work with the least row that may be claimed, Later and Over exactly where none may.
pub fn claim_exactly_where()
    ensures { ClaimExactlyWhere }
{}

/// When a commit answers Placed, Stale, LastStale and Gone.
pub fn commit_exactly_where()
    ensures { CommitExactlyWhere }
{}

/// A commit that is stale past the last time adds no entry.
pub fn past_last_adds_nothing()
    ensures { PastLastAddsNothing }
{}

/// When a run on the present store answers Placed and Gone.
pub fn here_exactly_where()
    ensures { HereExactlyWhere }
{}

/// When a release answers Freed and Gone.
pub fn release_exactly_where()
    ensures { ReleaseExactlyWhere }
{}

/// `reclaim` gives back each row that is Claimed, and answers how many they were.
pub fn reclaim_frees_all()
    ensures { ReclaimFreesAll }
{}

/// Further entries only add to the receipts, at their end.
pub fn receipts_grow()
    ensures { ReceiptsGrow }
{}

/// A watch never counts more than its number.
pub fn counts_stay_within()
    ensures { CountsStayWithin }
{}

/// No watch is named where all vote yes, and else the first that votes no.
pub fn first_no_is_named()
    ensures { FirstNoIsNamed }
{}

/// Nothing is taken from the queue exactly where it is empty.
pub fn empty_exactly_where()
    ensures { EmptyExactlyWhere }
{}

/// An event is refused exactly where it doesn't apply to what its actor holds.
pub fn refused_exactly_where()
    ensures { RefusedExactlyWhere }
{}

/// A refused event adds no entry and leaves the core as it was.
pub fn refused_changes_nothing()
    ensures { RefusedChangesNothing }
{}

/// A call leaves a seat that shares no entry with another one so.
pub fn call_keeps_unshared()
    ensures { CallKeepsUnshared }
{}

/// A split gives two seats that share no entry.
pub fn split_keeps_seats()
    ensures { SplitKeepsSeats }
{}

/// A join of two seats that share no entry is a seat with the own entries of both, and has seen what both have.
pub fn join_keeps_seats()
    ensures { JoinKeepsSeats }
{}

/// A joined seat shares no entry with a third with which neither did.
pub fn join_keeps_unshared()
    ensures { JoinKeepsUnshared }
{}

/// Sharing no entry holds both ways.
pub fn unshared_both_ways()
    ensures { UnsharedBothWays }
{}

/// A round after a round is a round.
pub fn rounds_chain()
    ensures { RoundsChain }
{}

/// A row with as many stale commits under a ticket as there may be has the last one of them in the history.
pub fn last_stale_is_logged()
    ensures { LastStaleIsLogged }
{}

/// Whatever events come, a row is run on the present store only after its last stale commit.
pub fn events_are_due()
    ensures { EventsAreDue }
{}
