//! Overlays, whose zeros hide what is below.

use crate::heaps::{cell, shown};
use ecf_heap::{Heap, Overlay};
use ecf_lang::cell::CellRead;
use std::alloc::{AllocError, Global};
use std::test::Fail;

/// What a store reads in five cells.
fn read<R: CellRead>(alloc: Global, store: &R) -> Result<String, AllocError> {
    let mut text = String::new(alloc);
    for (field, key) in [(0, 0), (0, 1), (4, 0), (5, 0), (6, 0)] {
        write!(text, "{} ", store.get(cell(field, key)))?;
    }
    Ok(text)
}

fn written<R: CellRead>(overlay: &mut Overlay<R>) -> Result<(), AllocError> {
    for (field, key, value) in [(4, 0, 2), (0, 1, 0), (5, 0, 0)] {
        overlay.set(cell(field, key), value)?;
    }
    Ok(())
}

/// What an overlay on a store reads and wrote, and what one above it reads.
fn overlaid<R: CellRead>(alloc: Global, store: &R) -> Result<(String, String, String), AllocError> {
    let mut overlay = Overlay::new(alloc, store);
    written(&mut overlay)?;
    let writes = shown(alloc, overlay.writes(alloc)?.as_slice())?;
    let above = read(alloc, &Overlay::new(alloc, &overlay))?;
    Ok((read(alloc, &overlay)?, writes, above))
}

#[test]
fn an_overlay_keeps_its_zeros(rt: HostRuntime) -> Result<(), Fail> {
    let alloc = rt.alloc();
    let mut heap = Heap::empty(alloc);
    heap.write(&[(cell(0, 0), 8), (cell(0, 1), 9)])?;
    let (now, writes, above) = overlaid(alloc, &heap)?;
    assert_eq!(rt; now.as_str(), "8 0 2 0 0 ");
    assert_eq!(rt; writes.as_str(), "0.0.1=0 0.4.0=2 0.5.0=0 ");
    assert_eq!(rt; above.as_str(), "8 0 2 0 0 ");
    let below = read(alloc, &heap)?;
    assert_eq!(rt; below.as_str(), "8 9 0 0 0 ");
    Ok(())
}
