//! Heaps that are written cell by cell and in lists, told in a line of text.

use ecf_heap::Heap;
use ecf_lang::cell::{Cell, CellRead};
use std::alloc::{AllocError, Global};
use std::test::Fail;

/// A map's cell in the first object.
pub(crate) fn cell(field: u8, key: u128) -> Cell {
    Cell {
        object: 0,
        field,
        key,
    }
}

/// Each cell as object, field and key, with its number.
pub(crate) fn shown(alloc: Global, cells: &[(Cell, u128)]) -> Result<String, AllocError> {
    let mut text = String::new(alloc);
    for (cell, value) in cells {
        write!(text, "{}.{}.{}={value} ", cell.object, cell.field, cell.key)?;
    }
    Ok(text)
}

pub(crate) fn cells_of(alloc: Global, heap: &Heap) -> Result<String, AllocError> {
    shown(alloc, heap.cells(alloc)?.as_slice())
}

/// Puts a number, and tells what is read then and which cells are held.
fn put(
    alloc: Global,
    heap: &mut Heap,
    cell: Cell,
    value: u128,
) -> Result<(u128, String), AllocError> {
    heap.put(cell, value)?;
    Ok((heap.get(cell), cells_of(alloc, heap)?))
}

#[test]
fn writes_take_in_order(rt: HostRuntime) -> Result<(), Fail> {
    let alloc = rt.alloc();
    let mut heap = Heap::empty(alloc);
    for (field, key, value, want) in [
        (1, 3, 5, "0.1.3=5 "),
        (0, 9, 7, "0.0.9=7 0.1.3=5 "),
        (1, 3, 6, "0.0.9=7 0.1.3=6 "),
        (1, 3, 0, "0.0.9=7 "),
        (2, 0, 0, "0.0.9=7 "),
    ] {
        let (now, cells) = put(alloc, &mut heap, cell(field, key), value)?;
        assert_eq!(rt; now, value);
        assert_eq!(rt; cells.as_str(), want);
    }
    Ok(())
}

fn held_nine(alloc: Global) -> Result<Heap, AllocError> {
    let mut heap = Heap::empty(alloc);
    heap.put(cell(0, 9), 7)?;
    Ok(heap)
}

/// The cells of a heap with three further writes, and then its own.
fn cells_with(alloc: Global, writes: &[(Cell, u128)]) -> Result<String, AllocError> {
    let heap = held_nine(alloc)?;
    let next = heap.with(writes)?;
    let before = cells_of(alloc, &heap)?;
    let after = cells_of(alloc, &next)?;
    format!(in alloc; "{before}then {after}")
}

/// The cells of a copy of a heap that was written.
fn cells_written(alloc: Global, writes: &[(Cell, u128)]) -> Result<String, AllocError> {
    let mut heap = held_nine(alloc)?;
    heap.write(writes)?;
    cells_of(alloc, &heap.copy()?)
}

#[test]
fn a_list_is_written_on_a_heap_or_a_copy(rt: HostRuntime) -> Result<(), Fail> {
    let alloc = rt.alloc();
    let writes = [(cell(3, 1), 1), (cell(0, 9), 0), (cell(0, 2), 4)];
    let text = cells_with(alloc, &writes)?;
    assert_eq!(rt; text.as_str(), "0.0.9=7 then 0.0.2=4 0.3.1=1 ");
    let text = cells_written(alloc, &writes)?;
    assert_eq!(rt; text.as_str(), "0.0.2=4 0.3.1=1 ");
    Ok(())
}
