//! Commits: what was judged is compared with the present store, and placed, given out again or refused.

ghost use Rattle.std.specs.Prelude.{◌≡◌, ◌≢◌, ◌<◌, ◌≤◌, ◌+◌, ℕ, true, length, Some, None, IfOk, IfSome, slice_get};
ghost use Rattle.std.specs.Arc.{arc_value};
ghost use Rattle.std.specs.Option.{option_map};
ghost use Rattle.ecf_book.specs.Answering.{Gives, said_by_commit, said_by_here};
ghost use Rattle.ecf_book.specs.Recorded.{opening_of, state_of, with_entries};
ghost use Rattle.ecf_book.specs.Steps.{IsOfBook, IsPlacing, standing};
ghost use Rattle.ecf_book.specs.Works.{GivesBack};
ghost use Rattle.ecf_core.specs.Book.{next_seq, row_at};
ghost use Rattle.ecf_core.specs.Calls.{commit, commit_answer, commit_here, first_changed_read, reply_with, stale_answer};
ghost use Rattle.ecf_core.specs.Legal.{HasChanged, IsHeld};
ghost use Rattle.ecf_core.specs.declared.event.Reply.TheVariants as reply;
ghost use Rattle.ecf_draft.specs.Drafts.{IsJudgedUnder};
ghost use Rattle.ecf_lang.specs.Store.{read};
ghost use Rattle.ecf_lang.specs.declared.limits.TheConstants.{MAX_STALES};
ghost use Rattle.ecf_rows.specs.Standing.{may_place};

use crate::book::Book;
use crate::replies::{Commit, Here};
use ecf_core::book::LogWhat;
use ecf_core::store_is_store;
use ecf_draft::{Decision, Judged, Work, run_and_judge};
use ecf_lang::cell::{Cell, CellRead};
use ecf_lang::limits::MAX_STALES;
use ecf_lang::receipt::Receipt;
use ecf_versions::Versions;
use std::alloc::{AllocError, Global};

// A read whose cell has another value now.
pub(crate) struct Change {
    cell: Cell,
    was: u128,
    is: u128,
}

impl Book {
    /// Commits what was judged: it gets its receipt where the row is claimed under its ticket and each of its reads has the
    /// same value now. Costs a comparison of each read, and the pages that are written. Takes memory for the store's next
    /// version, or to share the store in the work of `Stale`; `Gone` and `LastStale` take none.
    pub fn commit(&mut self, judged: Judged) -> Commit
        requires tx { slice_get self.old.setup.txs judged.row ≡ Some (arc_value judged.tx) }
        requires under_contract { IsJudgedUnder self.old.setup.typed judged }
        ensures answer { Gives (commit (state_of self.old) judged.row judged.ticket judged.reads) (said_by_commit result)
            self.old self.new }
        ensures back { GivesBack self.new judged result }
    {
        match self.stales_under(judged.row(), judged.ticket()) {
            None => Commit::Gone {
                kept: self.row(judged.row()),
            },
            Some(stales) => self.validate(judged, stales),
        }
    }

    // A commit of a row that is claimed under the ticket, with so many stale commits.
    fn validate(&mut self, judged: Judged, stales: u8) -> Commit
        requires of_book { IsOfBook self.old judged }
        requires held { IsHeld (state_of self.old) judged.row judged.ticket stales }
        requires in_turn { may_place (standing self.old) judged.row ≡ true }
        ensures answer { Gives (commit_answer (state_of self.old) judged.row judged.ticket stales
            (first_changed_read judged.reads (state_of self.old).ledger.store)) (said_by_commit result) self.old self.new }
        ensures back { GivesBack self.new judged result }
    {
        match first_changed(judged.reads(), &self.store) {
            None => self.place_judged(judged),
            Some(change) => self.refuse(judged, stales, change),
        }
    }

    // A commit of which no read has changed.
    fn place_judged(&mut self, judged: Judged) -> Commit
        requires of_book { IsOfBook self.old judged }
        requires held { (stales : ℕ) × IsHeld (state_of self.old) judged.row judged.ticket stales }
        requires in_turn { may_place (standing self.old) judged.row ≡ true }
        requires same { first_changed_read judged.reads (state_of self.old).ledger.store ≡ None }
        ensures answer { let seq = next_seq (state_of self.old) in
            Gives (reply_with (reply.Placed seq) judged.row judged.ticket (LogWhat.Placed seq)) (said_by_commit result) self.old self.new }
        ensures back { GivesBack self.new judged result }
    {
        store_is_store();
        match self.store.with(judged.writes()) {
            Err(AllocError) => Commit::NoMemory(judged),
            Ok(store) => {
                let (row, ticket) = (judged.row(), judged.ticket());
                let seq = self.next_seq();
                let receipt = judged.into_receipt();
                self.log_placed(row, ticket, LogWhat::Placed(seq), receipt, store);
                Commit::Placed { seq }
            }
        }
    }

    // A commit that is stale.
    fn refuse(&mut self, judged: Judged, stales: u8, change: Change) -> Commit
        requires of_book { IsOfBook self.old judged }
        requires held { IsHeld (state_of self.old) judged.row judged.ticket stales }
        requires changed { HasChanged (state_of self.old) change.cell change.was change.is }
        ensures answer { Gives (stale_answer judged.row judged.ticket stales change.cell change.was change.is) (said_by_commit result)
            self.old self.new }
        ensures back { GivesBack self.new judged result }
    {
        if stales < MAX_STALES - 1 {
            self.give_again(judged, stales, change)
        } else {
            self.give_up(judged, stales, change)
        }
    }

    // A stale commit that isn't the last one of its claim.
    fn give_again(&mut self, judged: Judged, stales: u8, change: Change) -> Commit
        requires of_book { IsOfBook self.old judged }
        requires held { IsHeld (state_of self.old) judged.row judged.ticket stales }
        requires changed { HasChanged (state_of self.old) change.cell change.was change.is }
        requires again { stales + 1 < MAX_STALES }
        ensures answer { Gives (stale_answer judged.row judged.ticket stales change.cell change.was change.is) (said_by_commit result)
            self.old self.new }
        ensures back { GivesBack self.new judged result }
    {
        let Change { cell, was, is } = change;
        match self.store.snapshot() {
            Err(AllocError) => Commit::NoMemory(judged),
            Ok(snapshot) => {
                let (row, ticket) = (judged.row(), judged.ticket());
                self.log_stale(row, ticket, LogWhat::Stale { cell, was, is });
                let work = Work {
                    row,
                    ticket,
                    tries: stales + 1,
                    tx: judged.into_tx(),
                    snapshot,
                };
                Commit::Stale {
                    cell,
                    was,
                    is,
                    work,
                }
            }
        }
    }

    // A stale commit after which the row is to be run by the book. One past the last adds nothing.
    fn give_up(&mut self, judged: Judged, stales: u8, change: Change) -> Commit
        requires held { IsHeld (state_of self.old) judged.row judged.ticket stales }
        requires changed { HasChanged (state_of self.old) change.cell change.was change.is }
        requires last { MAX_STALES ≤ stales + 1 }
        ensures answer { Gives (stale_answer judged.row judged.ticket stales change.cell change.was change.is) (said_by_commit result)
            self.old self.new }
        ensures back { GivesBack self.new judged result }
    {
        let Change { cell, was, is } = change;
        let (row, ticket) = (judged.row(), judged.ticket());
        self.count_last(row, ticket, stales, cell, was, is);
        Commit::LastStale {
            cell,
            was,
            is,
            row,
            ticket,
        }
    }

    // Counts the last stale commit of a claim, and none past it.
    fn count_last(&mut self, row: u32, ticket: u32, stales: u8, cell: Cell, was: u128, is: u128)
        requires held { IsHeld (state_of self.old) row ticket stales }
        requires changed { HasChanged (state_of self.old) cell was is }
        requires last { MAX_STALES ≤ stales + 1 }
        ensures { self.new ≡ with_entries self.old (stale_answer row ticket stales cell was is).entries }
    {
        if stales == MAX_STALES - 1 {
            self.log_stale(row, ticket, LogWhat::LastStale { cell, was, is });
        }
    }

    /// Runs and judges a row on the present store, and places it.
    pub fn commit_here(&mut self, alloc: Global, row: u32, ticket: u32) -> Here
        requires { row < length self.old.setup.txs }
        ensures { Gives (commit_here (state_of self.old) row ticket) (said_by_here result) self.old self.new }
    {
        match self.stales_under(row, ticket) {
            None => Here::Gone {
                kept: self.row(row),
            },
            Some(_) => self.place_here(alloc, row, ticket),
        }
    }

    // Runs, judges and places a row that is claimed under the ticket.
    fn place_here(&mut self, alloc: Global, row: u32, ticket: u32) -> Here
        requires known { row < length self.old.setup.txs }
        requires held { (stales : ℕ) × IsHeld (state_of self.old) row ticket stales }
        requires in_turn { may_place (standing self.old) row ≡ true }
        ensures { let seq = next_seq (state_of self.old) in
            Gives (reply_with (reply.Placed seq) row ticket (LogWhat.Here seq)) (said_by_here result) self.old self.new }
    {
        match self.run_row(alloc, row) {
            Err(AllocError) => Here::NoMemory,
            Ok((receipt, store)) => {
                let seq = self.next_seq();
                self.log_placed(row, ticket, LogWhat::Here(seq), receipt, store);
                Here::Placed { seq }
            }
        }
    }

    // The receipt of a row's transaction on the present store, and the store's next version.
    pub(crate) fn run_row(&self, alloc: Global, row: u32) -> Result<(Receipt, Versions), AllocError>
        requires { row < length self.now.setup.txs }
        ensures { IfOk result (λ ran. IsPlacing self.now row ran.0 ran.1) }
    {
        let tx = &self.txs[row as usize];
        let Decision {
            receipt,
            reads: _,
            writes,
        } = run_and_judge(alloc, &self.typed, &self.store, tx)?;
        let store = self.store.with(writes.as_slice())?;
        Ok((receipt, store))
    }
}

// The first of these reads whose cell has another value in the store.
fn first_changed(reads: &[(Cell, u128)], store: &Versions) -> Option<Change>
    ensures first { option_map (λ (change : Change). (change.cell, change.was)) result ≡ first_changed_read reads.now store.now }
    ensures change { IfSome result (λ change. (read store.now change.cell ≡ change.is) × (change.was ≢ change.is)) }
{
    for (cell, was) in reads {
        let is = store.get(*cell);
        if is != *was {
            return Some(Change {
                cell: *cell,
                was: *was,
                is,
            });
        }
    }
    None
}
