//! The rows of a book.

ghost use Rattle.std.specs.Prelude.{◌≡◌, ◌≤◌, ◌<◌, ◌+◌, true, length, map, IfOk, IfSome, OnOk, OnErr, All};
ghost use Rattle.std.specs.List.{list_any};
ghost use Rattle.std.specs.Arc.{arc_value};
ghost use Rattle.ecf_lang.specs.declared.limits.TheConstants.{MAX_TRANSACTIONS, MAX_STALES};
ghost use Rattle.ecf_core.specs.declared.book.RowState.TheVariants.{Done};
ghost use Rattle.ecf_core.specs.Book.{as_claimed, as_freed, as_stale, is_claimed, is_done};
ghost use Rattle.ecf_rows.specs.Standing.{AreDoneBefore, extended, first_open_from, least_claimable, may_claim, may_place, new_standing, stales_of, state_at, with_state};

use crate::links::{enter_first, links_of, submitters_of};
use crate::row_set::RowSet;
use crate::states::{
    append_free, append_links, enter_if_left, freed, is_claimed, is_done, staled, without,
};
use ecf_core::book::RowState;
use ecf_lang::tx::TxRef;
use std::alloc::{AllocError, Global};
use std::marker::Model;

/// The states of a book's rows, one for each transaction, at most
/// [`MAX_TRANSACTIONS`](ecf_lang::limits::MAX_TRANSACTIONS). Rows are numbered from 0.
#[derive(Drop)]
pub struct Rows {
    submitters: Vec<u32>,
    states: Vec<RowState>,
    /// Of each row the next one of the same submitter; the number of rows or more where there is none.
    links: Vec<u32>,
    claimable: RowSet,
    claimed: usize,
    /// All rows before this one are Done: those that there were when the last ones came.
    settled: usize,
}

impl Model for Rows {
    ghost use Rattle.ecf_rows.specs.Standing.{Standing};
    ghost use Rattle.ecf_rows.specs.Kept.{IsKept};

    ghost Value = { Standing };

    ghost view = { λ r. record { submitters = r.submitters.items; states = r.states.items } };

    ghost invariant = { λ r. IsKept (record { submitters = r.submitters.items; states = r.states.items }) r.links.items r.claimable r.claimed r.settled };
}

impl Rows {
    /// A row for each transaction, each Free with no claims.
    pub fn open(alloc: Global, txs: &[TxRef]) -> Result<Rows, AllocError>
        requires { length txs.now ≤ MAX_TRANSACTIONS }
        ensures { IfOk result (λ rows. rows ≡ new_standing (map arc_value txs.now)) }
    {
        let mut rows = Rows {
            submitters: Vec::new(alloc),
            states: Vec::new(alloc),
            links: Vec::new(alloc),
            claimable: RowSet::new(alloc),
            claimed: 0,
            settled: 0,
        };
        rows.extend(alloc, txs)?;
        Ok(rows)
    }

    /// A row more for each of these transactions, at the end, Free with no claims. For want of memory nothing changes.
    pub fn extend(&mut self, alloc: Global, txs: &[TxRef]) -> Result<(), AllocError>
        requires done { All (λ state. is_done state ≡ true) self.old.states }
        requires few { length self.old.states + length txs.now ≤ MAX_TRANSACTIONS }
        ensures ok { OnOk result (self.new ≡ extended self.old (map arc_value txs.now)) }
        ensures err { OnErr result (self.new ≡ self.old) }
    {
        let before = self.states.len();
        let submitters = submitters_of(alloc, txs)?;
        let links = links_of(alloc, submitters.as_slice(), before)?;
        self.claimable.make_room(before + txs.len())?;
        self.links.reserve(txs.len())?;
        self.states.reserve(txs.len())?;
        self.submitters.extend_from_slice(submitters.as_slice())?;
        append_free(&mut self.states, txs.len());
        append_links(&mut self.links, links.next.as_slice());
        enter_first(&mut self.claimable, submitters.as_slice(), &links, before);
        self.settled = before;
        Ok(())
    }

    /// How many rows there are.
    pub fn len(&self) -> u32
        ensures states { result ≡ length self.now.states }
        ensures submitters { result ≡ length self.now.submitters }
        ensures few { result ≤ MAX_TRANSACTIONS }
    {
        self.states.len() as u32
    }

    /// How many rows there were when the last ones came. These are Done.
    pub fn settled(&self) -> u32
        ensures done { AreDoneBefore self.now result }
        ensures within { result ≤ length self.now.states }
    {
        self.settled as u32
    }

    /// The state of a row; one that isn't there counts as Free with no claims.
    pub fn state(&self, row: u32) -> RowState
        ensures state { result ≡ state_at self.now row }
        ensures claimed { is_claimed result ≡ true → may_place self.now row ≡ true }
    {
        match self.states.get(row as usize) {
            Some(state) => *state,
            None => RowState::Free { claims: 0 },
        }
    }

    /// The least row that may be claimed.
    pub fn least(&self) -> Option<u32>
        ensures least { result ≡ least_claimable self.now }
        ensures may { IfSome result (λ row. may_claim self.now row ≡ true) }
        ensures within { IfSome result (λ row. row < length self.now.states) }
    {
        let row = self.claimable.least()?;
        Some(row as u32)
    }

    /// Whether some row is Claimed.
    pub fn any_claimed(&self) -> bool
        ensures { result ≡ list_any is_claimed self.now.states }
    {
        self.claimed > 0
    }

    /// The first row from a place on that isn't Done. It looks at each row up to there.
    pub fn first_open(&self, from: u32) -> Option<u32>
        ensures first { result ≡ first_open_from self.now from }
        ensures may { AreDoneBefore self.now from → IfSome result (λ row. may_place self.now row ≡ true) }
    {
        for row in from..self.len() {
            if !is_done(self.state(row)) {
                return Some(row);
            }
        }
        None
    }

    /// Claims a row that may be claimed, under this ticket.
    pub fn claim(&mut self, row: u32, ticket: u32)
        requires { may_claim self.old row ≡ true }
        ensures { self.new ≡ with_state self.old row (as_claimed ticket (state_at self.old row)) }
    {
        let at = row as usize;
        if let Some(RowState::Free { claims }) = self.states.get(at).copied() {
            self.states[at] = RowState::Claimed {
                ticket,
                claims: claims + 1,
                stales: 0,
            };
            self.claimable.remove(at);
            self.claimed += 1;
        }
    }

    /// Counts one stale commit more under a row's ticket; a row that isn't Claimed stays as it is.
    pub fn stale(&mut self, row: u32)
        requires { stales_of (state_at self.old row) < MAX_STALES }
        ensures { self.new ≡ with_state self.old row (as_stale (state_at self.old row)) }
    {
        let at = row as usize;
        if at < self.states.len() {
            self.states[at] = staled(self.states[at]);
        }
    }

    /// Gives a Claimed row back, with its claims counted; another row stays as it is.
    pub fn free(&mut self, row: u32)
        ensures { self.new ≡ with_state self.old row (as_freed (state_at self.old row)) }
    {
        let at = row as usize;
        if at < self.states.len() && is_claimed(self.states[at]) {
            self.claimed = without(self.claimed, self.states[at]);
            self.states[at] = freed(self.states[at]);
            enter_if_left(&mut self.claimable, self.states.as_slice(), at);
        }
    }

    /// Makes a row Done at this number of the journal.
    pub fn place(&mut self, row: u32, seq: u32)
        requires { may_place self.old row ≡ true }
        ensures { self.new ≡ with_state self.old row (Done seq) }
    {
        let at = row as usize;
        if at < self.states.len() {
            self.claimed = without(self.claimed, self.states[at]);
            self.states[at] = RowState::Done { seq };
            self.claimable.remove(at);
            let next = self.links[at] as usize;
            enter_if_left(&mut self.claimable, self.states.as_slice(), next);
        }
    }
}
