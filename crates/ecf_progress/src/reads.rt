//! What a run read from the store.

ghost use Rattle.std.specs.Prelude.{◌≡◌, ◌<◌, ◌≤◌, [], ◌∷◌, ◌++◌, length, OnOk, OnErr};
ghost use Rattle.ecf_lang.specs.Store.{find_cell};
ghost use Rattle.ecf_progress.specs.ReadCells.{FindAlike};

use ecf_lang::cell::Cell;
use std::alloc::{AllocError, Global};
use std::collections::BTreeMap;
use std::marker::Model;

/// So many cells are found by going through the list, and more of them in the map.
const FEW: usize = 8;

/// Cells with their values, in the order of first read, which contracts see as that list.
#[derive(Drop)]
pub struct ReadLog {
    list: Vec<(Cell, u128)>,
    /// The same by cell, to find one fast, where they are more than a few.
    by_cell: BTreeMap<Cell, u128>,
}

impl Model for ReadLog {
    ghost use Rattle.ecf_lang.specs.Store.{Cells};
    ghost use Rattle.std.specs.Prelude.{◌<◌, length};
    ghost use Rattle.ecf_progress.specs.ReadCells.{FindAlike};
    ghost use Rattle.ecf_progress.specs.declared.reads.TheConstants.{FEW};

    ghost Value = { Cells };

    ghost view = { λ r. r.list.items };

    ghost invariant = { λ r. FEW < length r.list.items → FindAlike r.by_cell.entries r.list.items };
}

impl ReadLog {
    pub fn new(alloc: Global) -> ReadLog
        ensures { result ≡ [] }
    {
        ReadLog {
            list: Vec::new(alloc),
            by_cell: BTreeMap::new(alloc),
        }
    }

    /// What a cell was read as, if it was.
    pub fn get(&self, cell: Cell) -> Option<u128>
        ensures { result ≡ find_cell self.now cell }
    {
        if self.list.len() <= FEW {
            return find_in(&self.list, cell);
        }
        self.by_cell.get(&cell).copied()
    }

    /// Puts a cell that isn't there at the end.
    pub fn push(&mut self, cell: Cell, value: u128) -> Result<(), AllocError>
        requires { find_cell self.old cell ≡ None }
        ensures pushed { OnOk result (self.new ≡ self.old ++ (cell, value) ∷ []) }
        ensures kept { OnErr result (self.new ≡ self.old) }
    {
        self.list.reserve(1)?;
        note(&mut self.by_cell, &self.list, cell, value)?;
        self.list.push_reserved((cell, value));
        Ok(())
    }

    pub fn into_vec(self) -> Vec<(Cell, u128)>
        ensures { result.items ≡ self }
    {
        let ReadLog { list, by_cell: _ } = self;
        list
    }
}

/// What a cell was read as among these pairs, if it was.
fn find_in(pairs: &[(Cell, u128)], cell: Cell) -> Option<u128>
    ensures { result ≡ find_cell pairs.now cell }
{
    for (other, value) in pairs {
        if *other == cell {
            return Some(*value);
        }
    }
    None
}

/// Readies the map for one more pair than these, of a cell that isn't among them.
fn note(
    map: &mut BTreeMap<Cell, u128>,
    pairs: &[(Cell, u128)],
    cell: Cell,
    value: u128,
) -> Result<(), AllocError>
    requires absent { find_cell pairs.now cell ≡ None }
    requires alike { FEW < length pairs.now → FindAlike map.old.entries pairs.now }
    ensures noted { OnOk result (FEW ≤ length pairs.now → FindAlike map.new.entries (pairs.now ++ (cell, value) ∷ [])) }
    ensures kept { OnErr result (FEW < length pairs.now → FindAlike map.new.entries pairs.now) }
{
    if pairs.len() < FEW {
        return Ok(());
    }
    if pairs.len() == FEW {
        put_all(map, pairs)?;
        map.insert(cell, value)?;
        return Ok(());
    }
    map.insert(cell, value)?;
    Ok(())
}

/// Makes a map the map of these pairs, in which the first of a cell counts.
fn put_all(map: &mut BTreeMap<Cell, u128>, pairs: &[(Cell, u128)]) -> Result<(), AllocError>
    ensures { OnOk result (FindAlike map.new.entries pairs.now) }
{
    map.clear();
    let mut left = pairs.len();
    while left > 0 {
        left -= 1;
        map.insert(pairs[left].0, pairs[left].1)?;
    }
    Ok(())
}
