//! Cells numbered in the order in which they come.

ghost use Rattle.indexmap.specs.IndexSet.{spare};
ghost use Rattle.std.specs.Prelude.{◌≡◌, ◌≤◌, ◌<◌, ◌+◌, length, IfOk, OnOk};
ghost use Rattle.ecf_conflict.specs.Numbering.{IsPutIn, cell_number};

use ecf_lang::cell::Cell;
use indexmap::IndexSet;
use std::alloc::AllocError;

/// The number of a cell, which is put in where it is new.
pub fn number_cell(cells: &mut IndexSet<Cell>, cell: Cell) -> Result<usize, AllocError>
    ensures number { IfOk result (λ k. k ≡ cell_number cells.old.keys cell) }
    ensures put { OnOk result (IsPutIn cells.old.keys cells.new.keys cell) }
{
    let (number, _) = cells.insert_full(cell)?;
    Ok(number)
}

/// The number of a cell, which is put in where it is new, without taking memory: there is room for one cell more.
pub fn number_in_room(cells: &mut IndexSet<Cell>, cell: Cell) -> usize
    requires { 0 < spare cells.old }
    ensures number { result ≡ cell_number cells.old.keys cell }
    ensures put { IsPutIn cells.old.keys cells.new.keys cell }
    ensures few { length cells.new.keys ≤ length cells.old.keys + 1 }
    ensures room { spare cells.old ≤ spare cells.new + 1 }
{
    match cells.insert_full(cell) {
        Ok((number, _)) => number,
        Err(_) => unreachable!(),
    }
}
