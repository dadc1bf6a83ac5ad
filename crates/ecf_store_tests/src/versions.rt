//! Versions below and above the sizes at which pages are cut, and snapshots, which stay as they are. Both are held
//! against a heap that is written alike.

use ecf_heap::Heap;
use ecf_lang::cell::{Cell, CellRead};
use ecf_versions::{Snapshot, Versions};
use std::alloc::{AllocError, Global};
use std::test::*;

/// The orders in which the cells of the numbers below a size are written.
#[derive(Clone, Copy, Debug)]
enum Order {
    Rising,
    Falling,
    Mixed,
}

/// What is written into the cell of a number.
#[derive(Clone, Copy, Debug)]
enum Round {
    /// One more than the number.
    Numbers,
    /// 0, at each number but every third.
    ZeroAtMost,
    /// 0.
    ZeroAtAll,
}

/// The cells of rising numbers rise.
fn cell_of(number: u64) -> Cell {
    Cell {
        object: (number / 65_536 % 256) as u8,
        field: (number / 1_024 % 64) as u8,
        key: u128::from(number % 1_024),
    }
}

/// The number that is written at a turn. Each below the size has its turn.
fn number_at(order: Order, turn: u64, size: u64) -> u64 {
    let turn = match order {
        Order::Rising => turn,
        Order::Falling => size.wrapping_sub(turn).wrapping_sub(1),
        Order::Mixed => turn.wrapping_mul(7_919),
    };
    turn % size.max(1)
}

/// What a round writes into the cell of a number, if anything.
fn value_at(round: Round, number: u64) -> Option<u128> {
    match round {
        Round::Numbers => Some(u128::from(number) + 1),
        Round::ZeroAtMost => { if number % 3 == 0 { None } else { Some(0) } }
        Round::ZeroAtAll => Some(0),
    }
}

/// The versions after a round, written some cells at a time.
fn after_round(
    alloc: Global,
    versions: Versions,
    order: Order,
    round: Round,
    size: u64,
) -> Result<Versions, AllocError> {
    let mut versions = versions;
    let mut writes = Vec::new(alloc);
    for turn in 0..size {
        let number = number_at(order, turn, size);
        if let Some(value) = value_at(round, number) {
            writes.push((cell_of(number), value))?;
        }
        if writes.len() == 1_000 {
            versions = versions.with(writes.as_slice())?;
            writes.clear();
        }
    }
    versions.with(writes.as_slice())
}

/// Whether each cell reads as the rounds left it, and the cells that aren't 0 are listed in their order.
fn is_as_left(
    alloc: Global,
    versions: &Versions,
    rounds: &[Round],
    size: u64,
) -> Result<bool, AllocError> {
    let mut wanted = Vec::new(alloc);
    for number in 0..size {
        let mut value = 0;
        for round in rounds {
            value = value_at(*round, number).unwrap_or(value);
        }
        if versions.get(cell_of(number)) != value {
            return Ok(false);
        }
        if value > 0 {
            wanted.push((cell_of(number), value))?;
        }
    }
    Ok(versions.cells(alloc)?.as_slice() == wanted.as_slice())
}

/// Writes in three rounds, and looks after each.
fn rounds_hold(alloc: Global, order: Order, size: u64) -> Result<bool, AllocError> {
    let rounds = [Round::Numbers, Round::ZeroAtMost, Round::ZeroAtAll];
    let mut versions = Versions::from_heap(alloc, &Heap::empty(alloc))?;
    for (at, round) in rounds.iter().enumerate() {
        versions = after_round(alloc, versions, order, *round, size)?;
        let so_far = rounds.get(..=at).unwrap_or(&[]);
        if !is_as_left(alloc, &versions, so_far, size)? {
            return Ok(false);
        }
    }
    Ok(true)
}

#[test]
fn all_sizes_hold_in_all_orders(rt: HostRuntime) -> Result<(), Fail> {
    let alloc = rt.alloc();
    for size in [0, 1, 256, 257, 65_536, 65_537, 200_000] {
        for order in [Order::Rising, Order::Falling, Order::Mixed] {
            assert!(rt; rounds_hold(alloc, order, size)?, "{order:?} to {size}");
        }
    }
    Ok(())
}

/// The writes of a turn: 1 to 64 cells.
fn writes_of(alloc: Global, turn: u64) -> Result<Vec<(Cell, u128)>, AllocError> {
    let mut writes = Vec::new(alloc);
    for at in 0..turn % 64 + 1 {
        let number = turn.wrapping_mul(37).wrapping_add(at.wrapping_mul(101)) % 3_000;
        let value = if number % 7 == 0 {
            0
        } else {
            u128::from(turn) + 1
        };
        writes.push((cell_of(number), value))?;
    }
    Ok(writes)
}

/// A snapshot before each turn.
fn snapshots(alloc: Global, heap: &Heap, turns: u64) -> Result<Vec<Snapshot>, AllocError> {
    let mut versions = Versions::from_heap(alloc, heap)?;
    let mut taken = Vec::new(alloc);
    for turn in 0..turns {
        taken.push(versions.snapshot()?)?;
        versions = versions.with(writes_of(alloc, turn)?.as_slice())?;
    }
    Ok(taken)
}

/// Whether a snapshot reads as the heap at the cells of all numbers.
fn reads_alike(snapshot: &Snapshot, heap: &Heap) -> bool {
    for number in 0..3_000 {
        if snapshot.get(cell_of(number)) != heap.get(cell_of(number)) {
            return false;
        }
    }
    true
}

#[test]
fn snapshots_stay_as_they_were(rt: HostRuntime) -> Result<(), Fail> {
    let alloc = rt.alloc();
    let mut heap = Heap::empty(alloc);
    for number in 0..2_000 {
        heap.put(cell_of(number), u128::from(number) + 5_000)?;
    }
    let taken = snapshots(alloc, &heap, 1_000)?;
    for (turn, snapshot) in taken.iter().enumerate() {
        assert!(rt; reads_alike(snapshot, &heap), "snapshot {turn}");
        heap.write(writes_of(alloc, turn as u64)?.as_slice())?;
    }
    Ok(())
}
