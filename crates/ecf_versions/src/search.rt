//! Looks for a cell among items that rise by their cells, in logarithmic time.

ghost use Rattle.std.specs.Prelude.{◌≡◌, map, length};
ghost use Rattle.std.specs.List.Sorted.{IsStrictlySortedBy};
ghost use Rattle.ecf_lang.specs.Store.{cell_cmp};
ghost use Rattle.ecf_lang.specs.declared.cell.Cell.{Cell};
ghost use Rattle.ecf_versions.specs.Places.{IsSearch};

use ecf_lang::cell::Cell;
use std::cmp::Ordering;

/// What has a cell that it is found by.
pub(crate) trait Keyed {
    ghost key: { Self → Cell };

    /// The cell.
    fn key(&self) -> Cell
        ensures { result ≡ key self.now };
}

/// A cell with its value is found by that cell.
impl Keyed for (Cell, u128) {
    ghost key = { λ pair. pair.0 };

    fn key(&self) -> Cell {
        self.0
    }
}

/// The place of the item with that cell, or else the place where it would go.
pub(crate) fn search<K: Keyed>(items: &[K], cell: Cell) -> Result<usize, usize>
    requires { IsStrictlySortedBy cell_cmp (map K.key items.now) }
    ensures { IsSearch (map K.key items.now) cell result }
{
    let mut low = 0;
    let mut high = items.len();
    while low < high {
        let middle = low + (high - low) / 2;
        match items[middle].key().cmp(&cell) {
            Ordering::Less => low = middle + 1,
            Ordering::Equal => return Ok(middle),
            Ordering::Greater => high = middle,
        }
    }
    Err(low)
}
