//! What a row asks of its pages.

ghost use Rattle.std.specs.Prelude.{◌≡◌, ◌<◌, ◌++◌, ◌↔◌, [], ◌∷◌, IfOk, OnOk, IsTrue};
ghost use Rattle.ecf_lang.specs.Store.{Cells, put, read};

use ecf_lang::cell::Cell;
use std::alloc::{AllocError, Global};

/// The most items of a page.
pub(crate) const MAX_ITEMS: usize = 256;

/// A page after a write: one page, or two with a cell between them, which the second's cells aren't below.
#[derive(Drop)]
pub(crate) struct Grown<P> {
    pub(crate) first: P,
    pub(crate) second: Option<(Cell, P)>,
}

/// A page of cells.
pub(crate) trait Page: Drop + Sized {
    ghost use Rattle.ecf_versions.specs.Grown.{IsGrown};

    /// Its cells with their values, rising.
    ghost cells: { Self → Cells };

    /// A page of one cell.
    fn single(alloc: Global, cell: Cell, value: u128) -> Result<Self, AllocError>
        ensures { IfOk result (λ page. cells page ≡ (cell, value) ∷ []) };

    fn is_empty(&self) -> bool
        ensures { IsTrue result ↔ (cells self.now ≡ []) };

    /// A page of its own with the same items.
    fn copy(&self, alloc: Global) -> Result<Self, AllocError>
        ensures { IfOk result (λ page. cells page ≡ cells self.now) };

    /// What the cell reads; 0 where it is absent.
    fn get(&self, cell: Cell) -> u128
        ensures { result ≡ read (cells self.now) cell };

    /// The page after a write, cut in two where it has too many items.
    fn put(self, alloc: Global, cell: Cell, value: u128) -> Result<Grown<Self>, AllocError>
        ensures { IfOk result (λ grown. IsGrown cells grown (put (cells self) cell value)) };

    /// Puts the page's cells at the end of a list.
    fn push_cells(&self, list: &mut Vec<(Cell, u128)>) -> Result<(), AllocError>
        ensures { OnOk result (list.new.items ≡ list.old.items ++ cells self.now) };
}
