//! What the calls of a book answer.

use ecf_core::book::RowState;
use ecf_draft::{Judged, Work};
use ecf_lang::cell::Cell;

/// What a claim answers.
#[derive(Drop)]
pub enum Claim {
    /// The least row that may be claimed, to be run on this snapshot.
    Work(Work),
    /// No row may be claimed now, and some row is claimed.
    Later,
    /// No row may be claimed, and none is claimed.
    Over,
    /// A row may be claimed, and memory was wanting to share it. The book is as it was.
    NoMemory,
}

/// What a commit answers.
#[derive(Drop)]
pub enum Commit {
    /// The row has its receipt, at this number of the journal, from 1.
    Placed {
        seq: u32,
    },
    /// This is the first of the run's reads whose cell has another value now. The row is to be run again, on this work's
    /// snapshot.
    Stale {
        cell: Cell,
        was: u128,
        is: u128,
        work: Work,
    },
    /// The same, as often as a claim may be stale: the row is to be run by `commit_here`.
    LastStale {
        cell: Cell,
        was: u128,
        is: u128,
        row: u32,
        ticket: u32,
    },
    /// The row isn't claimed under the ticket; so it stands.
    Gone {
        kept: RowState,
    },
    /// Memory was wanting for the store's next version, or to share the store in a work. The book is as it was.
    NoMemory(Judged),
}

/// What a run on the present store answers.
#[derive(Drop)]
pub enum Here {
    /// The row has its receipt, at this number of the journal, from 1.
    Placed { seq: u32 },
    /// The row isn't claimed under the ticket; so it stands.
    Gone { kept: RowState },
    /// Memory was wanting. The book is as it was.
    NoMemory,
}

/// What a release answers.
#[derive(Clone, Copy, Debug, PartialEq, Eq)]
pub enum Release {
    /// The row is given back.
    Freed,
    /// The row isn't claimed under the ticket; so it stands.
    Gone { kept: RowState },
}
