//! The end of all work, and more work after it.

ghost use Rattle.std.specs.Prelude.{◌≡◌, ◌<◌, ◌≤◌, ◌+◌, ◌*◌, [], ◌∷◌, ◌++◌, true, false, All, IfErr, OnErr, OnOk, length, map, vec_capacity, vec_len};
ghost use Rattle.std.specs.Arc.{arc_value};
ghost use Rattle.ecf_book.specs.Answering.{LeftOff};
ghost use Rattle.ecf_book.specs.Recorded.{opening_of, state_of, with_entries, with_more};
ghost use Rattle.ecf_book.specs.Steps.{MayCome, finishing_row};
ghost use Rattle.ecf_core.specs.Book.{is_done, next_seq, row_at};
ghost use Rattle.ecf_core.specs.Calls.{finish, finishing_entries, finishing_entry, freeing_entries};
ghost use Rattle.ecf_core.specs.Legal.{AreLegal};
ghost use Rattle.ecf_lang.specs.Fits.{Fits};
ghost use Rattle.ecf_lang.specs.declared.limits.TheConstants.{MAX_TRANSACTIONS};

use crate::book::{Book, MOST_ENTRIES};
use ecf_core::book::{LogEntry, LogWhat, RowState};
use ecf_core::{extend_keeps, finish_ends, reclaim_frees_all};
use ecf_lang::receipt::Entry;
use ecf_lang::tx::TxRef;
use ecf_rows::placed_in_order;
use std::alloc::{AllocError, Global};

impl Book {
    /// Ends all work: gives back each row that is claimed, and then runs, judges and places each row that isn't Done, in row
    /// order. At `Err`, for want of memory to place a row, each claimed row was given back, the rows before that row are Done,
    /// and it isn't.
    pub fn finish(&mut self, alloc: Global) -> Result<(), AllocError>
        ensures ok { OnOk result (self.new ≡ with_entries self.old (finish (state_of self.old))) }
        ensures err { OnErr result (let s = state_of self.old in
            LeftOff (freeing_entries 0 s.rows) (finishing_entries 0 (next_seq s) s.rows) self.old self.new) }
    {
        finish_ends();
        reclaim_frees_all();
        self.know_history();
        self.reclaim();
        self.place_open(alloc)
    }

    // Places each row that isn't Done, in row order.
    fn place_open(&mut self, alloc: Global) -> Result<(), AllocError>
        requires { let s = state_of self.old in AreLegal (opening_of self.old.setup) s (finishing_entries 0 (next_seq s) s.rows) }
        ensures ok { OnOk result (let s = state_of self.old in self.new ≡ with_entries self.old (finishing_entries 0 (next_seq s) s.rows)) }
        ensures err { OnErr result (let s = state_of self.old in LeftOff [] (finishing_entries 0 (next_seq s) s.rows) self.old self.new) }
    {
        let (settled, rows) = (self.settled(), self.rows());
        for row in settled..rows {
            self.place_row(alloc, row)?;
        }
        Ok(())
    }

    // Places a row if it isn't Done.
    fn place_row(&mut self, alloc: Global, row: u32) -> Result<(), AllocError>
        requires known { row < length self.old.setup.txs }
        requires may { let s = state_of self.old in
            is_done (row_at s row) ≡ false → MayCome self.old (finishing_entry row (next_seq s)) }
        ensures ok { OnOk result (let s = state_of self.old in
            self.new ≡ with_entries self.old (finishing_row row (next_seq s) (row_at s row))) }
        ensures err { OnErr result (self.new ≡ self.old) }
        ensures open { OnErr result (is_done (row_at (state_of self.old) row) ≡ false) }
    {
        match self.row(row) {
            RowState::Done { .. } => Ok(()),
            _ => self.place_last(alloc, row),
        }
    }

    // Places the first row that isn't Done, where none is claimed.
    fn place_last(&mut self, alloc: Global, row: u32) -> Result<(), AllocError>
        requires known { row < length self.old.setup.txs }
        requires open { is_done (row_at (state_of self.old) row) ≡ false }
        requires may { MayCome self.old (finishing_entry row (next_seq (state_of self.old))) }
        ensures ok { OnOk result (self.new ≡ with_entries self.old (finishing_entry row (next_seq (state_of self.old)) ∷ [])) }
        ensures err { OnErr result (self.new ≡ self.old) }
    {
        placed_in_order();
        let (receipt, store) = self.run_row(alloc, row)?;
        let seq = self.next_seq();
        self.log_placed(row, 0, LogWhat::Finished(seq), receipt, store);
        Ok(())
    }

    /// Adds rows for these transactions at the end, each Free and never claimed, and takes the memory that they need from
    /// then on. At `Err`, for want of memory, the transactions come back and the book is as it was.
    pub fn extend(&mut self, alloc: Global, txs: Vec<TxRef>) -> Result<(), (Vec<TxRef>, AllocError)>
        requires done { All (λ row. is_done row ≡ true) (state_of self.old).rows }
        requires fits { All (Fits self.old.setup.typed) (map arc_value txs.items) }
        requires few { length self.old.setup.txs + length txs.items ≤ MAX_TRANSACTIONS }
        ensures ok { OnOk result (self.new ≡ with_more self.old (map arc_value txs.items)) }
        ensures err { IfErr result (λ back. (back.0 ≡ txs) × (self.new ≡ self.old)) }
    {
        extend_keeps();
        if let Err(error) = reserve(&mut self.txs, &mut self.entries, &mut self.log, txs.len()) {
            return Err((txs, error));
        }
        if let Err(error) = self.rows.extend(alloc, txs.as_slice()) {
            return Err((txs, error));
        }
        append(&mut self.txs, txs);
        Ok(())
    }
}

// Makes room for more rows in these lists. At `Err`, for want of memory, some may have more room.
fn reserve(
    txs: &mut Vec<TxRef>,
    entries: &mut Vec<Entry>,
    log: &mut Vec<LogEntry>,
    more: usize,
) -> Result<(), AllocError>
    requires few { vec_len txs.old + more ≤ MAX_TRANSACTIONS }
    ensures txs { txs.new.items ≡ txs.old.items }
    ensures entries { entries.new.items ≡ entries.old.items }
    ensures log { log.new.items ≡ log.old.items }
    ensures less { (vec_capacity entries.old ≤ vec_capacity entries.new) × (vec_capacity log.old ≤ vec_capacity log.new) }
    ensures txs_room { OnOk result (vec_len txs.old + more ≤ vec_capacity txs.new) }
    ensures entries_room { OnOk result (vec_len txs.old + more ≤ vec_capacity entries.new) }
    ensures log_room { OnOk result (MOST_ENTRIES * (vec_len txs.old + more) ≤ vec_capacity log.new) }
{
    let rows = txs.len() + more;
    txs.reserve(more)?;
    make_capacity(entries, rows)?;
    make_capacity(log, MOST_ENTRIES * rows)
}

// Makes room for so many items in all. At `Err`, for want of memory, there is as much room as before.
fn make_capacity<T>(items: &mut Vec<T>, most: usize) -> Result<(), AllocError>
    ensures items { items.new.items ≡ items.old.items }
    ensures less { vec_capacity items.old ≤ vec_capacity items.new }
    ensures room { OnOk result (most ≤ vec_capacity items.new) }
{
    let len = items.len();
    if len < most {
        items.reserve(most - len)?;
    }
    Ok(())
}

// Appends transactions, for which there is room.
fn append(to: &mut Vec<TxRef>, txs: Vec<TxRef>)
    requires { vec_len to.old + vec_len txs ≤ vec_capacity to.old }
    ensures { to.new.items ≡ to.old.items ++ txs.items }
{
    let mut txs = txs;
    let _ = to.append(&mut txs);
}
