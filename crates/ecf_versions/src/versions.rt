//! Versions of a store, and snapshots of them.

ghost use Rattle.std.specs.Prelude.{◌≡◌, [], IfOk};
ghost use Rattle.ecf_lang.specs.Store.{IsStore, read, with_writes};

use crate::root::Root;
use ecf_heap::Heap;
use ecf_lang::cell::{Cell, CellRead};
use ecf_stores::empty_is_store;
use std::alloc::{AllocError, Global};
use std::marker::Model;
use std::sync::Arc;

/// A store that later versions share their unchanged pages with.
#[derive(Drop)]
pub struct Versions {
    alloc: Global,
    root: Arc<Root, Global>,
}

impl Model for Versions {
    ghost use Rattle.std.specs.Arc.{arc_value};
    ghost use Rattle.ecf_lang.specs.Store.{Store, IsStore};

    ghost Value = { Store };

    ghost view = { λ v. arc_value v.root };

    ghost invariant = { λ v. IsStore (arc_value v.root) };
}

impl Versions {
    /// The store of a heap.
    pub fn from_heap(alloc: Global, heap: &Heap) -> Result<Versions, AllocError>
        ensures { IfOk result (λ versions. versions ≡ heap.now) }
    {
        heap.know_store();
        let cells = heap.cells(alloc)?;
        let root = root_of(alloc, cells.as_slice())?;
        Ok(Versions {
            alloc,
            root: Arc::new(alloc, root)?,
        })
    }

    /// The store after these writes, one after the other. This version stays as it is, and shares with the new one all
    /// pages but those on the way to a cell that was written.
    pub fn with(&self, writes: &[(Cell, u128)]) -> Result<Versions, AllocError>
        ensures { IfOk result (λ versions. versions ≡ with_writes self.now writes.now) }
    {
        let copy = self.root.copy(self.alloc)?;
        let root = write_all(self.alloc, copy, writes)?;
        Ok(Versions {
            alloc: self.alloc,
            root: Arc::new(self.alloc, root)?,
        })
    }

    /// The cells with their values, rising.
    pub fn cells(&self, alloc: Global) -> Result<Vec<(Cell, u128)>, AllocError>
        ensures { IfOk result (λ cells. cells.items ≡ self.now) }
    {
        let mut cells = Vec::new(alloc);
        self.root.push_cells(&mut cells)?;
        Ok(cells)
    }

    /// This version as it is, which no later write changes. Shares the root, and fails only where that can't be shared
    /// once more.
    pub fn snapshot(&self) -> Result<Snapshot, AllocError>
        ensures { IfOk result (λ snapshot. snapshot ≡ self.now) }
    {
        Ok(Snapshot {
            root: Arc::try_clone(&self.root)?,
        })
    }
}

impl CellRead for Versions {
    ghost store = { λ v. v };

    fn get(&self, cell: Cell) -> u128 {
        self.root.get(cell)
    }

    fn know_store(&self) {
        let _ = &self.root;
    }
}

// The root after these writes, one after the other.
fn write_all(alloc: Global, from: Root, writes: &[(Cell, u128)]) -> Result<Root, AllocError>
    requires { IsStore from }
    ensures cells { IfOk result (λ root. root ≡ with_writes from writes.now) }
    ensures store { IfOk result (λ root. IsStore root) }
{
    let mut root = from;
    for (cell, value) in writes {
        let after = root.put(alloc, *cell, *value)?;
        root = after;
    }
    Ok(root)
}

// The root with these cells.
fn root_of(alloc: Global, cells: &[(Cell, u128)]) -> Result<Root, AllocError>
    requires { IsStore cells.now }
    ensures { IfOk result (λ root. root ≡ cells.now) }
{
    empty_is_store();
    let root = write_all(alloc, Root::empty(alloc), cells)?;
    Ok(root)
}

/// A store as a version had it.
#[derive(Drop)]
pub struct Snapshot {
    root: Arc<Root, Global>,
}

impl Model for Snapshot {
    ghost use Rattle.std.specs.Arc.{arc_value};
    ghost use Rattle.ecf_lang.specs.Store.{Store, IsStore};

    ghost Value = { Store };

    ghost view = { λ s. arc_value s.root };

    ghost invariant = { λ s. IsStore (arc_value s.root) };
}

impl CellRead for Snapshot {
    ghost store = { λ s. s };

    fn get(&self, cell: Cell) -> u128 {
        self.root.get(cell)
    }

    fn know_store(&self) {
        let _ = &self.root;
    }
}
