//! A store as a map of std's, which a look-up and a write walk in logarithmic time.

ghost use Rattle.std.specs.Prelude.{◌≡◌, [], IfOk, OnOk, OnErr};
ghost use Rattle.ecf_lang.specs.Store.{Store, put, read, with_writes};
ghost use Rattle.ecf_heap.specs.Writes.{HasFirstWrites};

use ecf_lang::cell::{Cell, CellRead};
use std::alloc::{AllocError, Global};
use std::collections::BTreeMap;
use std::marker::Model;

/// The cells that aren't 0.
#[derive(Drop)]
pub struct Heap {
    alloc: Global,
    cells: BTreeMap<Cell, u128>,
}

impl Model for Heap {
    ghost use Rattle.ecf_lang.specs.Store.{Store, IsStore};

    ghost Value = { Store };

    ghost view = { λ h. h.cells.entries };

    ghost invariant = { λ h. IsStore h.cells.entries };
}

impl Heap {
    /// A heap in which each cell reads 0.
    pub fn empty(alloc: Global) -> Heap
        ensures { result ≡ [] }
    {
        Heap {
            alloc,
            cells: BTreeMap::new(alloc),
        }
    }

    /// Writes a cell. After a want of memory the heap is as it was.
    pub fn put(&mut self, cell: Cell, value: u128) -> Result<(), AllocError>
        ensures ok { OnOk result (self.new ≡ put self.old cell value) }
        ensures err { OnErr result (self.new ≡ self.old) }
    {
        if value == 0 {
            self.cells.remove(&cell);
        } else {
            self.cells.insert(cell, value)?;
        }
        Ok(())
    }

    /// Writes these cells, one after the other. After a want of memory it has the first of the writes.
    pub fn write(&mut self, writes: &[(Cell, u128)]) -> Result<(), AllocError>
        ensures ok { OnOk result (self.new ≡ with_writes self.old writes.now) }
        ensures err { OnErr result (HasFirstWrites self.old writes.now self.new) }
    {
        for (cell, value) in writes {
            self.put(*cell, *value)?;
        }
        Ok(())
    }

    /// A heap of its own with the same cells.
    pub fn copy(&self) -> Result<Heap, AllocError>
        ensures { IfOk result (λ heap. heap ≡ self.now) }
    {
        Ok(Heap {
            alloc: self.alloc,
            cells: self.cells.clone()?,
        })
    }

    /// A heap of its own after these writes, one after the other.
    pub fn with(&self, writes: &[(Cell, u128)]) -> Result<Heap, AllocError>
        ensures { IfOk result (λ heap. heap ≡ with_writes self.now writes.now) }
    {
        let mut heap = self.copy()?;
        heap.write(writes)?;
        Ok(heap)
    }

    /// The cells with their values, rising.
    pub fn cells(&self, alloc: Global) -> Result<Vec<(Cell, u128)>, AllocError>
        ensures { IfOk result (λ cells. cells.items ≡ self.now) }
    {
        let mut cells = Vec::new(alloc);
        for (cell, value) in self.cells.iter() {
            cells.push((*cell, *value))?;
        }
        Ok(cells)
    }
}

impl CellRead for Heap {
    ghost store = { λ h. h };

    fn get(&self, cell: Cell) -> u128 {
        self.cells.get(&cell).copied().unwrap_or(0)
    }

    fn know_store(&self) {
        let _ = &self.cells;
    }
}
