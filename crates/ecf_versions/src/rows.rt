//! Rows of pages: what branches and the root are made of.

ghost use Rattle.std.specs.Prelude.{◌≡◌, ◌<◌, ◌≤◌, ◌+◌, ◌++◌, [], length, take, drop, vec_len, IfOk, OnOk, if◌then◌else◌};
ghost use Rattle.std.specs.Arc.{arc_value};
ghost use Rattle.std.specs.Ordering.{is_lt};
ghost use Rattle.ecf_lang.specs.Store.{cell_cmp, put, read};
ghost use Rattle.ecf_versions.specs.Pages.{IsRow, cells_of};
ghost use Rattle.ecf_versions.specs.Rows.{pages_of, insert_pages, filled_page, grown_pages, IsPlace, AreHalves};

use crate::page::{Grown, Page};
use crate::search::{Keyed, search};
use ecf_lang::cell::Cell;
use std::alloc::{AllocError, Global};
use std::sync::Arc;

/// A page of a row, and a cell that none of its cells is below.
#[derive(Drop)]
pub(crate) struct Item<P> {
    pub(crate) from: Cell,
    pub(crate) page: Arc<P, Global>,
}

/// A page is found by its least possible cell.
impl<P> Keyed for Item<P> {
    ghost key = { λ item. item.from };

    fn key(&self) -> Cell {
        self.from
    }
}

// The place of the page that the cell belongs to.
fn place<P: Page>(items: &[Item<P>], cell: Cell) -> usize
    requires row { IsRow (pages_of P.cells items.now) }
    requires some { 0 < length items.now }
    ensures { IsPlace (pages_of P.cells items.now) cell result }
{
    match search(items, cell) {
        Ok(at) => at,
        Err(at) => at.saturating_sub(1),
    }
}

/// What the cell reads in a row.
pub(crate) fn read_row<P: Page>(items: &[Item<P>], cell: Cell) -> u128
    requires { IsRow (pages_of P.cells items.now) }
    ensures { result ≡ read (cells_of (pages_of P.cells items.now)) cell }
{
    if items.is_empty() {
        return 0;
    }
    let at = place(items, cell);
    items[at].page.get(cell)
}

/// A row of the same pages, each of them shared.
pub(crate) fn share_row<P: Page>(
    alloc: Global,
    items: &[Item<P>],
) -> Result<Vec<Item<P>>, AllocError>
    ensures { IfOk result (λ copy. pages_of P.cells copy.items ≡ pages_of P.cells items.now) }
{
    let mut copy = Vec::new(alloc);
    for item in items {
        copy.push(Item {
            from: item.from,
            page: Arc::try_clone(&item.page)?,
        })?;
    }
    Ok(copy)
}

/// Puts the cells of a row at the end of a list.
pub(crate) fn push_row<P: Page>(
    items: &[Item<P>],
    list: &mut Vec<(Cell, u128)>,
) -> Result<(), AllocError>
    ensures { OnOk result (list.new.items ≡ list.old.items ++ cells_of (pages_of P.cells items.now)) }
{
    for item in items {
        item.page.push_cells(list)?;
    }
    Ok(())
}

// The page itself where nobody else holds it, and else a copy.
fn own_page<P: Page>(alloc: Global, page: Arc<P, Global>) -> Result<P, AllocError>
    ensures { IfOk result (λ own. P.cells own ≡ P.cells (arc_value page)) }
{
    match Arc::try_unwrap(page) {
        Ok(own) => Ok(own),
        Err(shared) => shared.copy(alloc),
    }
}

// The lower of two cells.
fn lower(a: Cell, b: Cell) -> Cell
    ensures { result ≡ (if is_lt (cell_cmp a b) then a else b) }
{
    if a.cmp(&b).is_lt() { a } else { b }
}

// A row of one page with one cell, or of none for a 0.
fn first_row<P: Page>(alloc: Global, cell: Cell, value: u128) -> Result<Vec<Item<P>>, AllocError>
    ensures row { IfOk result (λ after. IsRow (pages_of P.cells after.items)) }
    ensures cells { IfOk result (λ after. cells_of (pages_of P.cells after.items) ≡ put [] cell value) }
    ensures few { IfOk result (λ after. vec_len after ≤ 1) }
{
    let mut items = Vec::new(alloc);
    if value > 0 {
        items.push(Item {
            from: cell,
            page: Arc::new(alloc, P::single(alloc, cell, value)?)?,
        })?;
    }
    Ok(items)
}

// Puts a page at a place. An empty one is left out.
fn insert_page<P: Page>(
    alloc: Global,
    items: Vec<Item<P>>,
    at: usize,
    from: Cell,
    page: P,
) -> Result<Vec<Item<P>>, AllocError>
    requires { at ≤ vec_len items }
    ensures pages { IfOk result (λ after. pages_of P.cells after.items ≡ insert_pages (pages_of P.cells items.items) at (filled_page from (P.cells page))) }
    ensures few { IfOk result (λ after. vec_len after ≤ vec_len items + 1) }
    ensures many { IfOk result (λ after. vec_len items ≤ vec_len after) }
{
    let mut items = items;
    if page.is_empty() {
        return Ok(items);
    }
    let page = Arc::new(alloc, page)?;
    items.insert(at, Item { from, page })?;
    Ok(items)
}

// Puts a page back at its place, with what was cut off behind it.
fn put_back<P: Page>(
    alloc: Global,
    items: Vec<Item<P>>,
    at: usize,
    from: Cell,
    grown: Grown<P>,
) -> Result<Vec<Item<P>>, AllocError>
    requires { at ≤ vec_len items }
    ensures pages { IfOk result (λ after. pages_of P.cells after.items ≡ insert_pages (pages_of P.cells items.items) at (grown_pages P.cells from grown)) }
    ensures few { IfOk result (λ after. vec_len after ≤ vec_len items + 2) }
{
    let Grown { first, second } = grown;
    match second {
        None => insert_page(alloc, items, at, from, first),
        Some((middle, second)) => {
            let items = insert_page(alloc, items, at, middle, second)?;
            insert_page(alloc, items, at, from, first)
        }
    }
}

/// The row after a write. A page that is shared is copied first.
pub(crate) fn write_row<P: Page>(
    alloc: Global,
    items: Vec<Item<P>>,
    cell: Cell,
    value: u128,
) -> Result<Vec<Item<P>>, AllocError>
    requires { IsRow (pages_of P.cells items.items) }
    ensures row { IfOk result (λ after. IsRow (pages_of P.cells after.items)) }
    ensures cells { IfOk result (λ after. cells_of (pages_of P.cells after.items) ≡ put (cells_of (pages_of P.cells items.items)) cell value) }
    ensures few { IfOk result (λ after. vec_len after ≤ vec_len items + 1) }
{
    if items.is_empty() {
        return first_row(alloc, cell, value);
    }
    let mut items = items;
    let at = place(items.as_slice(), cell);
    let Item { from, page } = items.remove(at);
    let grown = own_page(alloc, page)?.put(alloc, cell, value)?;
    put_back(alloc, items, at, lower(cell, from), grown)
}

/// Cuts a row in the middle, and gives the cell between the two as well.
pub(crate) fn halve_row<P: Page>(
    items: Vec<Item<P>>,
) -> Result<(Vec<Item<P>>, Cell, Vec<Item<P>>), AllocError>
    requires row { IsRow (pages_of P.cells items.items) }
    requires long { 2 ≤ vec_len items }
    ensures halves { IfOk result (λ cut. AreHalves (pages_of P.cells items.items) (pages_of P.cells cut.0.items) cut.1 (pages_of P.cells cut.2.items)) }
    ensures first { IfOk result (λ cut. vec_len cut.0 < vec_len items) }
    ensures second { IfOk result (λ cut. vec_len cut.2 < vec_len items) }
{
    let mut items = items;
    let rest = items.split_off(items.len() / 2)?;
    let middle = rest[0].from;
    Ok((items, middle, rest))
}
