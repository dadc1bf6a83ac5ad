//! The root: a row of branches, as many as it needs.

ghost use Rattle.std.specs.Prelude.{◌≡◌, ◌++◌, [], IfOk, OnOk};
ghost use Rattle.ecf_lang.specs.Store.{put, read};

use crate::branch::Branch;
use crate::rows::{Item, push_row, read_row, share_row, write_row};
use ecf_lang::cell::Cell;
use std::alloc::{AllocError, Global};
use std::marker::Model;

/// A row of branches, which contracts see as their cells.
#[derive(Drop)]
pub(crate) struct Root {
    items: Vec<Item<Branch>>,
}

impl Model for Root {
    ghost use Rattle.ecf_lang.specs.Store.{Cells};
    ghost use Rattle.ecf_versions.specs.Pages.{IsRow, cells_of};
    ghost use Rattle.ecf_versions.specs.Rows.{pages_of};

    ghost Value = { Cells };

    ghost view = { λ r. cells_of (pages_of (λ b. b) r.items.items) };

    ghost invariant = { λ r. IsRow (pages_of (λ b. b) r.items.items) };
}

impl Root {
    pub(crate) fn empty(alloc: Global) -> Root
        ensures { result ≡ [] }
    {
        Root {
            items: Vec::new(alloc),
        }
    }

    /// A root of its own with the same branches.
    pub(crate) fn copy(&self, alloc: Global) -> Result<Root, AllocError>
        ensures { IfOk result (λ root. root ≡ self.now) }
    {
        Ok(Root {
            items: share_row(alloc, self.items.as_slice())?,
        })
    }

    pub(crate) fn get(&self, cell: Cell) -> u128
        ensures { result ≡ read self.now cell }
    {
        read_row(self.items.as_slice(), cell)
    }

    pub(crate) fn put(self, alloc: Global, cell: Cell, value: u128) -> Result<Root, AllocError>
        ensures { IfOk result (λ root. root ≡ put self cell value) }
    {
        let Root { items } = self;
        Ok(Root {
            items: write_row(alloc, items, cell, value)?,
        })
    }

    pub(crate) fn push_cells(&self, list: &mut Vec<(Cell, u128)>) -> Result<(), AllocError>
        ensures { OnOk result (list.new.items ≡ list.old.items ++ self.now) }
    {
        push_row(self.items.as_slice(), list)
    }
}
