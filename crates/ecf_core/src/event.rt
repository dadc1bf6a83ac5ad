//! What an actor of a schedule does, and what is replied.

use crate::book::RowState;
use ecf_lang::cell::Cell;

/// An event of a schedule, with the number of its actor, from 0.
#[derive(Clone, Copy, Debug, PartialEq, Eq)]
pub enum Event {
    /// Asks for a row to work on.
    Claim(u8),
    /// Runs the row that was claimed.
    Run(u8),
    /// Hands the draft to the queue.
    Hand(u8),
    /// Takes a draft from the queue.
    Take(u8),
    /// Judges the draft.
    Judge(u8),
    /// Commits what was judged.
    Commit(u8),
    /// Runs and judges the row on the store as it is now.
    Here(u8),
    /// Gives the row back.
    Release(u8),
    /// Forgets the row, which stays claimed.
    Lose(u8),
    /// Gives back all rows that are claimed; nobody's event.
    Reclaim,
}

/// What an event, or a call of the book, answers.
#[derive(Clone, Copy, Debug, PartialEq, Eq)]
pub enum Reply {
    /// The row is claimed.
    Work { row: u32 },
    /// No row may be claimed now, and some row is claimed.
    Later,
    /// No row may be claimed, and none is claimed.
    Over,
    /// The row was run.
    Ran,
    /// The queue has the draft.
    Handed,
    /// The queue is full, and the draft still held.
    Full,
    /// A draft of this row was taken from the queue.
    Took { row: u32 },
    /// The queue is empty.
    Empty,
    /// The draft was judged.
    Judged,
    /// The row has its receipt, at this number of the journal.
    Placed { seq: u32 },
    /// A value that the run had read has changed; the row is to be run again.
    Stale { cell: Cell, was: u128, is: u128 },
    /// The same, as often as a claim may be stale.
    LastStale { cell: Cell, was: u128, is: u128 },
    /// The row isn't claimed under the ticket; so it stands.
    Gone { kept: RowState },
    /// The row was given back.
    Freed,
    /// The row was forgotten.
    Lost,
    /// So many rows were given back.
    Reclaimed { rows: u32 },
    /// The event doesn't apply to what the actor holds.
    Refused,
}
