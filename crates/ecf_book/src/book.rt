//! The book: what it holds, how it is opened, and what it tells.

ghost use Rattle.std.specs.Prelude.{◌≡◌, ◌<◌, ◌≤◌, All, IfOk, length, map, IsSome, true};
ghost use Rattle.std.specs.Arc.{arc_value};
ghost use Rattle.ecf_book.specs.Kept.{HasHistory, IsSerial, journal_entries};
ghost use Rattle.ecf_book.specs.Recorded.{opened, setup_of, state_of};
ghost use Rattle.ecf_book.specs.Steps.{standing};
ghost use Rattle.ecf_core.specs.Book.{next_seq, row_at, stales_under};
ghost use Rattle.ecf_heap.specs.Numbered.{IsWithinLimits};
ghost use Rattle.ecf_lang.specs.Fits.{Fits};
ghost use Rattle.ecf_lang.specs.declared.limits.TheConstants.{MAX_TRANSACTIONS};
ghost use Rattle.ecf_rows.specs.Standing.{AreDoneBefore, may_place};

use crate::setup::Setup;
use ecf_core::book::{LogEntry, RowState};
use ecf_core::{
    few_entries, finish_ends, journal_grows, journal_is_legal, ledger_is_serial,
    no_watch_is_serial, rows_agree, three_stales,
};
use ecf_heap::genesis;
use ecf_lang::cell::Cell;
use ecf_lang::limits::{MAX_CLAIMS, MAX_STALES};
use ecf_lang::receipt::Entry;
use ecf_lang::tx::TxRef;
use ecf_lang::typed::Typed;
use ecf_rows::Rows;
use ecf_turnstile::History;
use ecf_versions::Versions;
use std::alloc::{AllocError, Global};
use std::marker::Model;
use std::sync::Arc;

/// The most entries of a row in the history: a claim, its stale commits and its end for each claim, and one more when all
/// work ends.
pub(crate) const MOST_ENTRIES: usize = 1 + MAX_CLAIMS as usize * (MAX_STALES as usize + 2);

// An entry of the history takes at most 96 bytes.
const _: () = prove!(size_of::<LogEntry>() <= 96);

/// The commit book. To a contract: what it was opened with, and the entries of its history; its state is what these lead
/// to, and its setup never changes but for `extend`.
#[derive(Drop)]
pub struct Book {
    pub(crate) typed: Arc<Typed>,
    pub(crate) txs: Vec<TxRef>,
    pub(crate) rows: Rows,
    pub(crate) entries: Vec<Entry>,
    pub(crate) log: Vec<LogEntry>,
    pub(crate) tickets: u32,
    pub(crate) store: Versions,
}

impl Model for Book {
    ghost use Rattle.std.specs.Prelude.{◌≡◌, map, vec_capacity};
    ghost use Rattle.std.specs.Arc.{arc_value};
    ghost use Rattle.ecf_book.specs.Held.{Keeps, held};
    ghost use Rattle.ecf_book.specs.Recorded.{Recorded, recorded};
    ghost use Rattle.ecf_book.specs.contracts.setup.Setup as setup;
    ghost use Rattle.std.specs.Coded.{codes};

    ghost Value = { Recorded };

    ghost coded = { Prim.hlevel (codes, setup.the_row.coded) };

    ghost view = { λ b. recorded (arc_value b.typed) (map arc_value b.txs.items) b.log.items };

    ghost invariant = { λ b. Keeps (recorded (arc_value b.typed) (map arc_value b.txs.items) b.log.items)
        (held b.rows b.entries.items b.tickets b.store) (vec_capacity b.entries) (vec_capacity b.log) };
}

impl History for Book {
    type Opening = Setup;

    type Entry = LogEntry;

    ghost opening = { λ b. b.setup };

    ghost entries = { λ b. b.entries };

    fn history_len(&self) -> u64 {
        self.log.len() as u64
    }
}

impl Book {
    /// A book over these transactions: each row is Free and was never claimed. Takes the memory that rows, journal and
    /// history need from then on.
    pub fn open(alloc: Global, typed: Arc<Typed>, txs: Vec<TxRef>) -> Result<Book, AllocError>
        requires limits { IsWithinLimits (arc_value typed) }
        requires fits { All (Fits (arc_value typed)) (map arc_value txs.items) }
        requires few { length txs.items ≤ MAX_TRANSACTIONS }
        ensures { IfOk result (λ b. b ≡ opened (setup_of (arc_value typed) (map arc_value txs.items))) }
    {
        let heap = genesis(alloc, &typed)?;
        let store = Versions::from_heap(alloc, &heap)?;
        let rows = Rows::open(alloc, txs.as_slice())?;
        let count = txs.len();
        let entries = Vec::with_capacity(alloc, count)?;
        let log = Vec::with_capacity(alloc, MOST_ENTRIES * count)?;
        Ok(Book {
            typed,
            txs,
            rows,
            entries,
            log,
            tickets: 0,
            store,
        })
    }

    /// How many rows there are: one for each transaction.
    pub fn rows(&self) -> u32
        ensures rows { result ≡ length self.now.setup.txs }
        ensures states { result ≡ length (state_of self.now).rows }
        ensures few { result ≤ MAX_TRANSACTIONS }
    {
        self.txs.len() as u32
    }

    /// The state of a row.
    pub fn row(&self, row: u32) -> RowState
        requires { row < length self.now.setup.txs }
        ensures { result ≡ row_at (state_of self.now) row }
    {
        self.rows.state(row)
    }

    /// How many rows there were when the last ones came. These are Done, and no call looks at them one by one again.
    pub fn settled(&self) -> u32
        ensures done { AreDoneBefore (standing self.now) result }
        ensures within { result ≤ length self.now.setup.txs }
    {
        self.rows.settled()
    }

    /// The transactions, in the order of their rows.
    pub fn txs(&self) -> &[TxRef]
        ensures { map arc_value result.now ≡ self.now.setup.txs }
    {
        self.txs.as_slice()
    }

    /// The journal so far: rows with their receipts.
    pub fn entries(&self) -> &[Entry]
        ensures { result.now ≡ journal_entries (state_of self.now) }
    {
        self.entries.as_slice()
    }

    /// The history: the calls that changed the book, in order.
    pub fn log(&self) -> &[LogEntry]
        ensures { result.now ≡ self.now.entries }
    {
        self.log.as_slice()
    }

    /// The contract, shared. Fails only where it can't be shared once more.
    pub fn typed(&self) -> Result<Arc<Typed>, AllocError>
        ensures { IfOk result (λ typed. arc_value typed ≡ self.now.setup.typed) }
    {
        Arc::try_clone(&self.typed)
    }

    /// The cells of the present store with their values, rising.
    pub fn cells(&self, alloc: Global) -> Result<Vec<(Cell, u128)>, AllocError>
        ensures { IfOk result (λ cells. cells.items ≡ (state_of self.now).ledger.store) }
    {
        self.store.cells(alloc)
    }

    /// Makes known that the history is legal, and that a ticket has few stale commits in it and a row few entries.
    pub fn know_history(&self)
        ensures { HasHistory self.now }
    {
        three_stales();
        few_entries();
        let _ = &self.log;
    }

    /// Makes known that the journal is legal so far, that its receipts and the store are those of running its transactions
    /// one after the other, and that the rows agree with it.
    pub fn know_serial(&self)
        ensures { IsSerial self.now }
    {
        journal_is_legal();
        ledger_is_serial();
        no_watch_is_serial();
        rows_agree();
        let _ = &self.log;
    }

    // The number of the journal's next entry.
    pub(crate) fn next_seq(&self) -> u32
        ensures { result ≡ next_seq (state_of self.now) }
    {
        finish_ends();
        journal_grows();
        self.entries.len() as u32 + 1
    }

    // How many commits of a row were stale under a ticket, where it is claimed under it.
    pub(crate) fn stales_under(&self, row: u32, ticket: u32) -> Option<u8>
        requires { row < length self.now.setup.txs }
        ensures stales { result ≡ stales_under ticket (row_at (state_of self.now) row) }
        ensures in_turn { IsSome result → may_place (standing self.now) row ≡ true }
    {
        match self.rows.state(row) {
            RowState::Claimed {
                ticket: given,
                stales,
                ..
            } if given == ticket => Some(stales),
            _ => None,
        }
    }
}
