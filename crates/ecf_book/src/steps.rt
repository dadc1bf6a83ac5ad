//! The steps of a book: each adds one entry to the history, and makes the rest say what the history says then.

ghost use Rattle.std.specs.Prelude.{◌≡◌, [], ◌∷◌, suc, true, Some, length};
ghost use Rattle.ecf_book.specs.Recorded.{opening_of, state_of, with_entries};
ghost use Rattle.ecf_book.specs.Steps.{IsPlacing, MayCome, entry, standing};
ghost use Rattle.ecf_core.specs.Book.{claimable_row};
ghost use Rattle.ecf_core.specs.Counts.{is_stale, places_row};
ghost use Rattle.ecf_core.specs.Legal.{IsHeld};
ghost use Rattle.ecf_rows.specs.Standing.{may_place};

use crate::book::Book;
use ecf_core::book::{LogEntry, LogWhat};
use ecf_core::{few_entries, finish_ends, journal_grows};
use ecf_lang::receipt::{Entry, Receipt};
use ecf_versions::Versions;

impl Book {
    // Gives the next ticket for the least row that may be claimed, and says which.
    pub(crate) fn log_claimed(&mut self, row: u32) -> u32
        requires { claimable_row (opening_of self.old.setup) (state_of self.old) ≡ Some row }
        ensures added { self.new ≡ with_entries self.old (entry row (suc (state_of self.old).tickets) LogWhat.Claimed ∷ []) }
        ensures ticket { result ≡ suc (state_of self.old).tickets }
        ensures held { IsHeld (state_of self.new) row result 0 }
    {
        few_entries();
        let ticket = self.tickets + 1;
        self.rows.claim(row, ticket);
        self.log.push_reserved(LogEntry {
            row,
            ticket,
            what: LogWhat::Claimed,
        });
        self.tickets = ticket;
        ticket
    }

    // Counts a stale commit.
    pub(crate) fn log_stale(&mut self, row: u32, ticket: u32, what: LogWhat)
        requires stale { is_stale what ≡ true }
        requires may { MayCome self.old (entry row ticket what) }
        ensures { self.new ≡ with_entries self.old (entry row ticket what ∷ []) }
    {
        few_entries();
        self.rows.stale(row);
        self.log.push_reserved(LogEntry { row, ticket, what });
    }

    // Gives a row back.
    pub(crate) fn log_freed(&mut self, row: u32, ticket: u32)
        requires { MayCome self.old (entry row ticket LogWhat.Freed) }
        ensures { self.new ≡ with_entries self.old (entry row ticket LogWhat.Freed ∷ []) }
    {
        few_entries();
        self.rows.free(row);
        self.log.push_reserved(LogEntry {
            row,
            ticket,
            what: LogWhat::Freed,
        });
    }

    // Gives a row its receipt, and the store its next version.
    pub(crate) fn log_placed(
        &mut self,
        row: u32,
        ticket: u32,
        what: LogWhat,
        receipt: Receipt,
        store: Versions,
    )
        requires places { places_row what ≡ true }
        requires may { MayCome self.old (entry row ticket what) }
        requires in_turn { may_place (standing self.old) row ≡ true }
        requires right { IsPlacing self.old row receipt store }
        ensures { self.new ≡ with_entries self.old (entry row ticket what ∷ []) }
    {
        few_entries();
        finish_ends();
        journal_grows();
        let seq = self.entries.len() as u32 + 1;
        self.rows.place(row, seq);
        self.entries.push_reserved(Entry { row, receipt });
        self.log.push_reserved(LogEntry { row, ticket, what });
        self.store = store;
    }
}
