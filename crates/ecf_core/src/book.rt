//! Where a transaction of the book stands, and the calls that changed the book.

use ecf_lang::cell::Cell;

/// Where the transaction at a row stands.
#[derive(Clone, Copy, Debug, PartialEq, Eq)]
pub enum RowState {
    /// Nobody works on it.
    Free {
        /// How often it was claimed.
        claims: u8,
    },
    /// Somebody works on it.
    Claimed {
        /// The number that the claim was given, from 1.
        ticket: u32,
        /// How often it was claimed, this time included.
        claims: u8,
        /// How many commits under this ticket were stale.
        stales: u8,
    },
    /// It has its receipt.
    Done {
        /// The number of its entry in the journal, from 1.
        seq: u32,
    },
}

/// A call that changed the book.
#[derive(Clone, Copy, Debug, PartialEq, Eq)]
pub struct LogEntry {
    /// The row that it changed; 0 where a watch was taken out.
    pub row: u32,
    /// The ticket that it was made under; 0 where it was made under none.
    pub ticket: u32,
    pub what: LogWhat,
}

/// What a call changed.
#[derive(Clone, Copy, Debug, PartialEq, Eq)]
pub enum LogWhat {
    /// The row was claimed, and the ticket given.
    Claimed,
    /// A commit gave the row its receipt, at this number of the journal.
    Placed(u32),
    /// A commit found a value changed that its run had read; the row is to be run again.
    Stale { cell: Cell, was: u128, is: u128 },
    /// The same, as often as a claim may be stale; the row is to be run while nobody else changes the book.
    LastStale { cell: Cell, was: u128, is: u128 },
    /// A run that nobody could overtake gave the row its receipt, at this number of the journal.
    Here(u32),
    /// The row was given back.
    Freed,
    /// At the end of all work the row was given its receipt, at this number of the journal.
    Finished(u32),
    /// The watch at this place, from 0, was taken out.
    Off { watch: u16 },
}
