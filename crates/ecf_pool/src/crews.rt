//! Who runs a round: whoever the host is given for it, and the threads of this crate.
ghost use Rattle.std.specs.Prelude.{◌≡◌, ◌≤◌, ℕ, not, if◌then◌else◌, IfOk, IfErr};
ghost use Rattle.std.specs.Thread.{IsSync};
ghost use Rattle.ecf_lang.specs.declared.limits.TheConstants.{MAX_MONITORS, MAX_WORKERS};
ghost use Rattle.ecf_core.specs.Book.{is_done};
ghost use Rattle.ecf_pool.specs.AfterRounds.{HasBegun, IsAfterRound, counted_up, open_rows};

use crate::rounds::run_round;
use ecf_book::Book;
use ecf_core::book::RowState;
use ecf_edge::{Gate, OpenGate};
use std::alloc::{AllocError, Global};
use std::sync::Wait;
use std::thread;

/// Runs rounds, and counts the rows that they placed.
pub trait Crew {
    /// How many rows its rounds have placed. It stays at 2^64 - 1 once it is there.
    ghost count: { Self → ℕ };

    /// Has workers and monitors run the rows of a book that aren't Done, and place each. At `Err`, for want of memory, what was
    /// placed stays so.
    fn round<R: thread::Threads + Wait + Sync>(
        &mut self,
        rt: &R,
        alloc: Global,
        book: Book,
        workers: usize,
        monitors: usize,
    ) -> Result<Book, (Book, AllocError)>
        requires shared { IsSync R.row }
        requires workers { (1 ≤ workers) × (workers ≤ MAX_WORKERS) }
        requires monitors { (1 ≤ monitors) × (monitors ≤ MAX_MONITORS) }
        ensures ok { IfOk result (IsAfterRound ⊥ book) }
        ensures err { IfErr result (λ refused. HasBegun book refused.0) }
        ensures counted { IfOk result (λ _. count self.new ≡ counted_up (count self.old) (open_rows book)) }
        ensures never_falls { count self.old ≤ count self.new };
}

/// The crew of threads, with the gate that each of them goes by.
#[derive(Drop)]
pub struct Threads<G: Gate + Sync> {
    gate: G,
    count: u64,
}

impl<G: Gate + Sync> Threads<G> {
    ghost use Rattle.ecf_pool.specs.Counts.{count_of, gate_of};

    /// A crew that has placed no row yet.
    pub fn new(gate: G) -> Threads<G>
        ensures gate { gate_of result ≡ gate }
        ensures count { count_of result ≡ 0 }
    {
        Threads { gate, count: 0 }
    }

    /// The gate.
    pub fn gate(&self) -> &G
        ensures { result.now ≡ gate_of self.now }
    {
        &self.gate
    }

    /// Runs a round in threads of its own, as a crew does. A crew over another gate than `OpenGate` is a type that calls this.
    pub fn run<R: thread::Threads + Wait + Sync>(
        &mut self,
        rt: &R,
        alloc: Global,
        book: Book,
        workers: usize,
        monitors: usize,
    ) -> Result<Book, (Book, AllocError)>
        requires workers { (1 ≤ workers) × (workers ≤ MAX_WORKERS) }
        requires monitors { (1 ≤ monitors) × (monitors ≤ MAX_MONITORS) }
        ensures ok { IfOk result (IsAfterRound ⊥ book) }
        ensures err { IfErr result (λ refused. HasBegun book refused.0) }
        ensures counted { IfOk result (λ _. count_of self.new ≡ counted_up (count_of self.old) (open_rows book)) }
        ensures never_falls { count_of self.old ≤ count_of self.new }
    {
        let open = open_rows_of(&book);
        let book = run_round(rt, alloc, book, workers, monitors, &self.gate)?;
        self.count = self.count.saturating_add(open);
        Ok(book)
    }
}

impl Crew for Threads<OpenGate> {
    ghost use Rattle.ecf_pool.specs.Counts.{count_of};

    ghost count = { count_of };

    fn round<R: thread::Threads + Wait + Sync>(
        &mut self,
        rt: &R,
        alloc: Global,
        book: Book,
        workers: usize,
        monitors: usize,
    ) -> Result<Book, (Book, AllocError)> {
        self.run(rt, alloc, book, workers, monitors)
    }
}

// How many rows aren't Done.
fn open_rows_of(book: &Book) -> u64
    ensures { result ≡ open_rows book.now }
{
    let mut open = 0;
    for row in 0..book.rows() {
        open += open_row(book.row(row));
    }
    open
}

// 1 for a row that isn't Done, and else 0.
fn open_row(row: RowState) -> u64
    ensures row { result ≡ (if not (is_done row) then 1 else 0) }
    ensures few { result ≤ 1 }
{
    match row {
        RowState::Done { .. } => 0,
        _ => 1,
    }
}
