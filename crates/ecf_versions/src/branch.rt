//! A branch: a row of leaves.

ghost use Rattle.std.specs.Prelude.{◌≡◌, IfOk};

use crate::leaf::Leaf;
use crate::page::{Grown, MAX_ITEMS, Page};
use crate::rows::{Item, halve_row, push_row, read_row, share_row, write_row};
use ecf_lang::cell::Cell;
use std::alloc::{AllocError, Global};
use std::marker::Model;
use std::sync::Arc;

/// A row of leaves, which contracts see as their cells. There are `MAX_ITEMS` at most.
#[derive(Drop)]
pub(crate) struct Branch {
    items: Vec<Item<Leaf>>,
}

impl Model for Branch {
    ghost use Rattle.ecf_lang.specs.Store.{Cells};
    ghost use Rattle.ecf_versions.specs.Pages.{cells_of};
    ghost use Rattle.ecf_versions.specs.Rows.{pages_of, IsBranch};

    ghost Value = { Cells };

    ghost view = { λ b. cells_of (pages_of (λ l. l) b.items.items) };

    ghost invariant = { λ b. IsBranch (pages_of (λ l. l) b.items.items) };
}

impl Page for Branch {
    ghost cells = { λ b. b };

    fn single(alloc: Global, cell: Cell, value: u128) -> Result<Branch, AllocError> {
        let leaf = Leaf::single(alloc, cell, value)?;
        let mut items = Vec::new(alloc);
        items.push(Item {
            from: cell,
            page: Arc::new(alloc, leaf)?,
        })?;
        Ok(Branch { items })
    }

    fn is_empty(&self) -> bool {
        self.items.is_empty()
    }

    fn copy(&self, alloc: Global) -> Result<Branch, AllocError> {
        Ok(Branch {
            items: share_row(alloc, self.items.as_slice())?,
        })
    }

    fn get(&self, cell: Cell) -> u128 {
        read_row(self.items.as_slice(), cell)
    }

    fn put(self, alloc: Global, cell: Cell, value: u128) -> Result<Grown<Branch>, AllocError> {
        let Branch { items } = self;
        let items = write_row(alloc, items, cell, value)?;
        if items.len() > MAX_ITEMS {
            let (items, middle, rest) = halve_row(items)?;
            return Ok(Grown {
                first: Branch { items },
                second: Some((middle, Branch { items: rest })),
            });
        }
        Ok(Grown {
            first: Branch { items },
            second: None,
        })
    }

    fn push_cells(&self, list: &mut Vec<(Cell, u128)>) -> Result<(), AllocError> {
        push_row(self.items.as_slice(), list)
    }
}
