//! Claims, and rows given back.

ghost use Rattle.std.specs.Prelude.{◌≡◌, ◌<◌, [], ◌++◌, ℕ, drop, length, slice_get, Some, None, IfOk};
ghost use Rattle.std.specs.Arc.{arc_value};
ghost use Rattle.ecf_book.specs.Answering.{Gives, WasGiven, said_by_claim, said_by_release};
ghost use Rattle.ecf_book.specs.Recorded.{opening_of, state_of, with_entries};
ghost use Rattle.ecf_book.specs.Steps.{freeing_row};
ghost use Rattle.ecf_book.specs.Works.{GivesWork};
ghost use Rattle.ecf_core.specs.Book.{claimable_row, row_at};
ghost use Rattle.ecf_core.specs.Calls.{claim, claim_answer, reclaim, release};
ghost use Rattle.ecf_core.specs.declared.event.Reply.TheVariants as reply;

use crate::book::Book;
use crate::replies::{Claim, Release};
use ecf_core::book::RowState;
use ecf_draft::Work;
use ecf_lang::tx::TxRef;
use ecf_versions::Snapshot;
use std::alloc::AllocError;
use std::sync::Arc;

impl Book {
    /// Claims the least row that may be claimed, under the next ticket. Takes no memory where none may be claimed.
    pub fn claim(&mut self) -> Claim
        ensures answer { Gives (claim (opening_of self.old.setup) (state_of self.old)) (said_by_claim result) self.old self.new }
        ensures work { GivesWork self.new result }
    {
        match self.rows.least() {
            Some(row) => self.claim_row(row),
            None => self.later_or_over(),
        }
    }

    // Claims this row, which is the least that may be claimed.
    fn claim_row(&mut self, row: u32) -> Claim
        requires { claimable_row (opening_of self.old.setup) (state_of self.old) ≡ Some row }
        ensures answer { Gives (claim_answer (state_of self.old) (Some row)) (said_by_claim result) self.old self.new }
        ensures work { GivesWork self.new result }
    {
        match self.shared(row) {
            Ok((tx, snapshot)) => {
                let ticket = self.log_claimed(row);
                Claim::Work(Work {
                    row,
                    ticket,
                    tries: 0,
                    tx,
                    snapshot,
                })
            }
            Err(AllocError) => Claim::NoMemory,
        }
    }

    // The transaction of a row and the present store, shared.
    fn shared(&self, row: u32) -> Result<(TxRef, Snapshot), AllocError>
        requires { row < length self.now.setup.txs }
        ensures tx { IfOk result (λ shared. slice_get self.now.setup.txs row ≡ Some (arc_value shared.0)) }
        ensures snapshot { IfOk result (λ shared. shared.1 ≡ (state_of self.now).ledger.store) }
    {
        let tx = Arc::try_clone(&self.txs[row as usize])?;
        let snapshot = self.store.snapshot()?;
        Ok((tx, snapshot))
    }

    // What is answered where no row may be claimed.
    fn later_or_over(&mut self) -> Claim
        ensures answer { Gives (claim_answer (state_of self.old) None) (said_by_claim result) self.old self.new }
        ensures work { GivesWork self.new result }
    {
        if self.rows.any_claimed() {
            Claim::Later
        } else {
            Claim::Over
        }
    }

    /// Gives a row back. Takes no memory.
    pub fn release(&mut self, row: u32, ticket: u32) -> Release
        requires { row < length self.old.setup.txs }
        ensures { WasGiven (release (state_of self.old) row ticket) (said_by_release result) self.old self.new }
    {
        match self.stales_under(row, ticket) {
            None => Release::Gone {
                kept: self.row(row),
            },
            Some(_) => {
                self.log_freed(row, ticket);
                Release::Freed
            }
        }
    }

    /// Gives back each row that is claimed, and says how many they were. Takes no memory.
    pub fn reclaim(&mut self) -> u32
        ensures { WasGiven (reclaim (state_of self.old)) (reply.Reclaimed result) self.old self.new }
    {
        let (settled, rows) = (self.settled(), self.rows());
        let mut count = 0;
        for row in settled..rows {
            count += self.reclaim_row(row);
        }
        count
    }

    // Gives a row back if it is claimed, and says how many that were.
    fn reclaim_row(&mut self, row: u32) -> u32
        requires { row < length self.old.setup.txs }
        ensures added { self.new ≡ with_entries self.old (freeing_row row (row_at (state_of self.old) row)) }
        ensures count { result ≡ length (freeing_row row (row_at (state_of self.old) row)) }
    {
        match self.row(row) {
            RowState::Claimed { ticket, .. } => {
                self.log_freed(row, ticket);
                1
            }
            _ => 0,
        }
    }
}
