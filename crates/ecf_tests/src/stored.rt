//! A store in memory, for runs.

use ecf_lang::cell::{Cell, CellRead};
use std::alloc::{AllocError, Global};
use std::collections::BTreeMap;
use std::marker::Model;

/// The first cell of a contract.
const FIRST: Cell = Cell {
    object: 0,
    field: 0,
    key: 0,
};

/// A store in memory.
#[derive(Drop)]
pub(crate) struct Stored {
    cells: BTreeMap<Cell, u128>,
}

impl Model for Stored {
    ghost use Rattle.std.specs.Prelude.{◌≡◌};
    ghost use Rattle.ecf_lang.specs.Store.{Store, IsStore};

    ghost Value = { Store };

    ghost view = { λ s. s.cells.entries };

    ghost invariant = { λ s. IsStore s.cells.entries };
}

impl CellRead for Stored {
    ghost store = { λ s. s };

    fn get(&self, cell: Cell) -> u128 {
        self.cells.get(&cell).copied().unwrap_or(0)
    }

    fn know_store(&self) {
        let _cells = &self.cells;
    }
}

/// A store with this number in the first cell.
pub(crate) fn stored_first(alloc: Global, value: u128) -> Result<Stored, AllocError> {
    let mut cells = BTreeMap::new(alloc);
    if value > 0 {
        cells.insert(FIRST, value)?;
    }
    Ok(Stored { cells })
}
