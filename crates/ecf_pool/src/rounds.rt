//! A round: the threads work on a book until all its rows are Done, and what they left is looked through.
ghost use Rattle.std.specs.Prelude.{◌≡◌, ◌≤◌, ◌<◌, true, length, take, IfOk, IfErr, IsTrue};
ghost use Rattle.ecf_book.specs.declared.setup.Setup.{Setup};
ghost use Rattle.ecf_core.specs.Rounds.{HasLastStale, IsDue, IsLastStale, MayAdd};
ghost use Rattle.ecf_lang.specs.declared.limits.TheConstants.{MAX_MONITORS, MAX_WORKERS};
ghost use Rattle.ecf_pool.specs.AfterRounds.{AllDone, HasBegun, IsAfterRound, IsRoundFrom};
ghost use Rattle.ecf_pool.specs.Empty.{empty_setup};

use crate::crew::crew;
use crate::drafts::{DraftJob, Queue};
use crate::tools::Tools;
use crate::turn_desk::TurnDesk;
use crate::workplace::Workplace;
use ecf_book::Book;
use ecf_core::book::{LogEntry, LogWhat, RowState};
use ecf_edge::{Gate, NeverQuit, Quit};
use std::alloc::{AllocError, Global};
use std::marker::Brand;
use std::sync::Wait;
use std::thread::Threads;

/// Workers and monitors run the rows of a book that aren't Done, and place each. At `Err`, for want of memory, no row is
/// claimed any more, and what was placed stays so.
pub fn run_round<G: Gate + Sync, R: Threads + Wait + Sync>(
    rt: &R,
    alloc: Global,
    book: Book,
    workers: usize,
    monitors: usize,
    gate: &G,
) -> Result<Book, (Book, AllocError)>
    requires workers { (1 ≤ workers) × (workers ≤ MAX_WORKERS) }
    requires monitors { (1 ≤ monitors) × (monitors ≤ MAX_MONITORS) }
    ensures ok { IfOk result (IsAfterRound ⊥ book) }
    ensures err { IfErr result (λ refused. HasBegun book refused.0) }
{
    run_round_with(rt, alloc, book, workers, monitors, gate, &NeverQuit)
}

/// The same, where threads may be told to quit: such a thread gives back the row that it holds, and ends. The rows that
/// are left then are placed in the end.
pub fn run_round_with<G: Gate + Sync, Q: Quit + Sync, R: Threads + Wait + Sync>(
    rt: &R,
    alloc: Global,
    book: Book,
    workers: usize,
    monitors: usize,
    gate: &G,
    quit: &Q,
) -> Result<Book, (Book, AllocError)>
    requires workers { (1 ≤ workers) × (workers ≤ MAX_WORKERS) }
    requires monitors { (1 ≤ monitors) × (monitors ≤ MAX_MONITORS) }
    ensures ok { IfOk result (IsAfterRound (Q.may quit.now) book) }
    ensures err { IfErr result (λ refused. HasBegun book refused.0) }
{
    round_of::<Brand, G, Q, R>(rt, alloc, book, workers, monitors, gate, quit)
}

impl DraftJob for Brand {
    ghost setup = { empty_setup };
}

// A round whose drafts are of the book's contract and transactions, which a type names.
fn round_of<J: DraftJob + Send + Sync, G: Gate + Sync, Q: Quit + Sync, R: Threads + Wait + Sync>(
    rt: &R,
    alloc: Global,
    book: Book,
    workers: usize,
    monitors: usize,
    gate: &G,
    quit: &Q,
) -> Result<Book, (Book, AllocError)>
    requires job { J.setup ≡ book.setup }
    requires workers { workers ≤ MAX_WORKERS }
    requires monitors { monitors ≤ MAX_MONITORS }
    ensures ok { IfOk result (IsAfterRound (Q.may quit.now) book) }
    ensures err { IfErr result (λ refused. HasBegun book refused.0) }
{
    let before = book.log().len();
    let (book, gave_up) = work_on::<J, G, Q, R>(rt, alloc, book, workers, monitors, gate, quit)?;
    settle(alloc, book, before, gave_up)
}

// The threads work on the book. Whether one of them was told to quit.
fn work_on<J: DraftJob + Send + Sync, G: Gate + Sync, Q: Quit + Sync, R: Threads + Wait + Sync>(
    rt: &R,
    alloc: Global,
    book: Book,
    workers: usize,
    monitors: usize,
    gate: &G,
    quit: &Q,
) -> Result<(Book, bool), (Book, AllocError)>
    requires job { J.setup ≡ book.setup }
    requires workers { workers ≤ MAX_WORKERS }
    requires monitors { monitors ≤ MAX_MONITORS }
    ensures book { IfOk result (λ worked. HasBegun book worked.0) }
    ensures cause { IfOk result (λ worked. worked.1 ≡ true → Q.may quit.now) }
    ensures err { IfErr result (λ refused. HasBegun book refused.0) }
{
    book.know_history();
    let Ok(typed) = book.typed() else {
        return Err((book, AllocError));
    };
    let Ok((queue, pass)) = Queue::<J>::new(alloc) else {
        return Err((book, AllocError));
    };
    let (desk, seat) = TurnDesk::new(alloc, book)?;
    let (seat, second) = desk.split(seat);
    let place = Workplace {
        alloc,
        typed: &typed,
        desk: &desk,
        queue: &queue,
        gate,
        quit,
    };
    let tools = Tools { seat: second, pass };
    let worked = crew(rt, &place, tools, workers, monitors);
    let (book, _seat) = desk.close(rt, seat);
    match worked {
        Ok(gave_up) => Ok((book, gave_up)),
        Err(AllocError) => Err((book, AllocError)),
    }
}

// Looks through what the threads left in the book since this place of its history. Where they didn't do all, rows that are
// left are given back; but where one was told to quit, they are placed first.
fn settle(
    alloc: Global,
    book: Book,
    before: usize,
    gave_up: bool,
) -> Result<Book, (Book, AllocError)>
    requires { before ≤ length book.entries }
    ensures setup { IfOk result (λ b. b.setup ≡ book.setup) }
    ensures same { IfOk result (λ b. take before b.entries ≡ take before book.entries) }
    ensures round { IfOk result (λ b. IsRoundFrom (gave_up ≡ true) before b.entries) }
    ensures done { IfOk result AllDone }
    ensures err { IfErr result (λ refused. HasBegun book refused.0) }
{
    let mut book = book;
    if gave_up && book.finish(alloc).is_err() {
        return Err((book, AllocError));
    }
    if all_done(&book) && is_round(book.log(), before, gave_up) {
        return Ok(book);
    }
    book.reclaim();
    Err((book, AllocError))
}

// Whether all rows are Done.
fn all_done(book: &Book) -> bool
    ensures { IsTrue result → AllDone book.now }
{
    for row in book.settled()..book.rows() {
        if !matches!(book.row(row), RowState::Done { .. }) {
            return false;
        }
    }
    true
}

// Whether from a place of a history on stands what workers and monitors may add.
fn is_round(log: &[LogEntry], from: usize, gave_up: bool) -> bool
    requires { from ≤ length log.now }
    ensures { IsTrue result → IsRoundFrom (gave_up ≡ true) from log.now }
{
    for place in from..log.len() {
        if !may_follow(&log[..place], &log[place], gave_up) {
            return false;
        }
    }
    true
}

// Whether workers and monitors may add this entry after those before it.
fn may_follow(earlier: &[LogEntry], entry: &LogEntry, gave_up: bool) -> bool
    ensures { IsTrue result → MayAdd (gave_up ≡ true) entry.now.what × IsDue earlier.now entry.now entry.now.what }
{
    match entry.what {
        LogWhat::Claimed | LogWhat::Placed(_) | LogWhat::Stale { .. } | LogWhat::LastStale { .. } =>
            true,
        LogWhat::Here(_) => has_last_stale(earlier, entry.row, entry.ticket),
        LogWhat::Freed | LogWhat::Finished(_) => gave_up,
        LogWhat::Off { .. } => false,
    }
}

// Whether the last stale commit of a row under a ticket is among the entries. It is looked for from the end, where it stands
// if the row is run in the turn soon after.
fn has_last_stale(entries: &[LogEntry], row: u32, ticket: u32) -> bool
    ensures { IsTrue result → HasLastStale entries.now row ticket }
{
    let mut place = entries.len();
    while place > 0 {
        place -= 1;
        if is_last_stale(&entries[place], row, ticket) {
            return true;
        }
    }
    false
}

// Whether the entry is the last stale commit of a row under a ticket.
fn is_last_stale(entry: &LogEntry, row: u32, ticket: u32) -> bool
    ensures { IsTrue result → (entry.now.row ≡ row) × (entry.now.ticket ≡ ticket) × IsLastStale entry.now.what }
{
    entry.row == row && entry.ticket == ticket && matches!(entry.what, LogWhat::LastStale { .. })
}
