//! A leaf: cells with their values.

ghost use Rattle.std.specs.Prelude.{◌≡◌, ◌<◌, ◌≤◌, ◌+◌, IfOk, vec_len};
ghost use Rattle.ecf_lang.specs.Store.{Cells, IsRising, put};
ghost use Rattle.ecf_versions.specs.Grown.{IsGrown};
ghost use Rattle.ecf_versions.specs.declared.page.TheConstants.{MAX_ITEMS};

use crate::page::{Grown, MAX_ITEMS, Page};
use crate::search::search;
use ecf_lang::cell::Cell;
use std::alloc::{AllocError, Global};
use std::marker::Model;

/// Cells with their values, which contracts see as their rising list. There are `MAX_ITEMS` at most.
#[derive(Drop)]
pub(crate) struct Leaf {
    items: Vec<(Cell, u128)>,
}

impl Model for Leaf {
    ghost use Rattle.ecf_lang.specs.Store.{Cells};
    ghost use Rattle.ecf_versions.specs.Leaves.{IsLeaf};

    ghost Value = { Cells };

    ghost view = { λ l. l.items.items };

    ghost invariant = { λ l. IsLeaf l.items.items };
}

// The items after a write.
fn write(items: Vec<(Cell, u128)>, cell: Cell, value: u128) -> Result<Vec<(Cell, u128)>, AllocError>
    requires { IsRising items.items }
    ensures { IfOk result (λ after. after.items ≡ put items.items cell value) }
{
    let mut items = items;
    match search(items.as_slice(), cell) {
        Ok(at) => {
            if value == 0 {
                items.remove(at);
                return Ok(items);
            }
            items[at].1 = value;
            Ok(items)
        }
        Err(at) => {
            if value == 0 {
                return Ok(items);
            }
            items.insert(at, (cell, value))?;
            Ok(items)
        }
    }
}

// Cuts items in the middle.
fn halves(items: Vec<(Cell, u128)>) -> Result<Grown<Leaf>, AllocError>
    requires rising { IsRising items.items }
    requires long { MAX_ITEMS < vec_len items }
    requires short { vec_len items ≤ MAX_ITEMS + 1 }
    ensures { IfOk result (λ grown. IsGrown (λ l. l) grown items.items) }
{
    let mut items = items;
    let rest = items.split_off(items.len() / 2)?;
    let from = rest[0].0;
    Ok(Grown {
        first: Leaf { items },
        second: Some((from, Leaf { items: rest })),
    })
}

impl Page for Leaf {
    ghost cells = { λ l. l };

    fn single(alloc: Global, cell: Cell, value: u128) -> Result<Leaf, AllocError> {
        Ok(Leaf {
            items: Vec::from_slice(alloc, &[(cell, value)])?,
        })
    }

    fn is_empty(&self) -> bool {
        self.items.is_empty()
    }

    fn copy(&self, alloc: Global) -> Result<Leaf, AllocError> {
        Ok(Leaf {
            items: Vec::from_slice(alloc, self.items.as_slice())?,
        })
    }

    fn get(&self, cell: Cell) -> u128 {
        match search(self.items.as_slice(), cell) {
            Ok(at) => self.items[at].1,
            Err(_) => 0,
        }
    }

    fn put(self, _alloc: Global, cell: Cell, value: u128) -> Result<Grown<Leaf>, AllocError> {
        let Leaf { items } = self;
        let items = write(items, cell, value)?;
        if items.len() > MAX_ITEMS {
            return halves(items);
        }
        Ok(Grown {
            first: Leaf { items },
            second: None,
        })
    }

    fn push_cells(&self, list: &mut Vec<(Cell, u128)>) -> Result<(), AllocError> {
        list.extend_from_slice(self.items.as_slice())
    }
}
