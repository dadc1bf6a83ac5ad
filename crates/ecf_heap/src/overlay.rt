//! Writes laid over a store that stays as it is.

ghost use Rattle.std.specs.Prelude.{◌≡◌, [], IfOk, OnOk, OnErr};
ghost use Rattle.ecf_lang.specs.Store.{put, read};
ghost use Rattle.ecf_heap.specs.Overlaid.{Overlaid, with_write, store_of};

use ecf_lang::cell::{Cell, CellRead};
use std::alloc::{AllocError, Global};
use std::collections::BTreeMap;
use std::marker::Model;

/// A store, and what each cell that was written holds now. A 0 is kept as it was written, so that it hides what the
/// store holds there.
#[derive(Drop)]
pub struct Overlay<'a, R: CellRead> {
    base: &'a R,
    written: BTreeMap<Cell, u128>,
}

impl<'a, R: CellRead> Model for Overlay<'a, R> {
    ghost use Rattle.ecf_heap.specs.Overlaid.{Overlaid, IsOverlaid};

    ghost Value = { Overlaid };

    ghost view = { λ o. record { base = R.store o.base.now; written = o.written.entries } };

    ghost invariant = { λ o. IsOverlaid (record { base = R.store o.base.now; written = o.written.entries }) };
}

impl<'a, R: CellRead> Overlay<'a, R> {
    /// Nothing written over a store.
    pub fn new(alloc: Global, base: &'a R) -> Overlay<'a, R>
        ensures { result ≡ record { base = R.store base.entry.now; written = [] } }
    {
        base.know_store();
        Overlay {
            base,
            written: BTreeMap::new(alloc),
        }
    }

    /// Writes a cell. After a want of memory the overlay is as it was.
    pub fn set(&mut self, cell: Cell, value: u128) -> Result<(), AllocError>
        ensures ok { OnOk result (self.new ≡ with_write self.old cell value) }
        ensures store { OnOk result (store_of self.new ≡ put (store_of self.old) cell value) }
        ensures err { OnErr result (self.new ≡ self.old) }
    {
        self.written.insert(cell, value)?;
        Ok(())
    }

    /// The written cells with the value that each holds now, zeros too, rising.
    pub fn writes(&self, alloc: Global) -> Result<Vec<(Cell, u128)>, AllocError>
        ensures { IfOk result (λ cells. cells.items ≡ self.now.written) }
    {
        let mut cells = Vec::new(alloc);
        for (cell, value) in self.written.iter() {
            cells.push((*cell, *value))?;
        }
        Ok(cells)
    }
}

impl<'a, R: CellRead> CellRead for Overlay<'a, R> {
    ghost store = { λ o. store_of o };

    fn get(&self, cell: Cell) -> u128 {
        match self.written.get(&cell) {
            Some(value) => *value,
            None => self.base.get(cell),
        }
    }

    fn know_store(&self) {
        let _ = &self.written;
    }
}
