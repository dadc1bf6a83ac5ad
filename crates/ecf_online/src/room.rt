//! Room for a piece of the trace, made before any of its steps is taken. What is kept of the trace stays as it was.

ghost use Rattle.indexmap.specs.IndexSet.{spare};
ghost use Rattle.std.specs.Prelude.{◌≡◌, ◌≤◌, ◌<◌, ◌+◌, ◌/◌, ◌^◌, ℕ, [], length, slice_index_or, vec_len, vec_capacity, OnOk};
ghost use Rattle.ecf_graph.specs.Rows.{is_member};
ghost use Rattle.ecf_lang.specs.declared.run.Step.{Step};
ghost use Rattle.ecf_online.specs.Closure.{IsReady};
ghost use Rattle.ecf_online.specs.Widening.{OpensRow, RowsWider, Widens};

use crate::watch::{Read, Watch};
use ecf_graph::{Row, extend_rows};
use ecf_lang::cell::Cell;
use ecf_lang::run::Step;
use indexmap::IndexSet;
use std::alloc::{AllocError, Global};

/// Makes room for so many items in all.
fn reserve_to<T>(list: &mut Vec<T>, most: usize) -> Result<(), AllocError>
    ensures items { list.new.items ≡ list.old.items }
    ensures long { vec_len list.new ≡ vec_len list.old }
    ensures room { OnOk result (most ≤ vec_capacity list.new) }
{
    let more = most.saturating_sub(list.len());
    list.reserve(more)
}

/// Makes room for the cells, reads and pairs of so many steps, where there will be at most so many pairs.
pub fn reserve_lists(
    cells: &mut IndexSet<Cell>,
    watches: &mut Vec<Watch>,
    reads: &mut Vec<Read>,
    pairs: &mut Vec<(u16, u16)>,
    steps: usize,
    most_pairs: usize,
) -> Result<(), AllocError>
    requires { length cells.old.keys + steps < 2 ^ 64 }
    ensures cells { cells.new.keys ≡ cells.old.keys }
    ensures watches { watches.new.items ≡ watches.old.items }
    ensures reads { reads.new.items ≡ reads.old.items }
    ensures pairs { pairs.new.items ≡ pairs.old.items }
    ensures cell_room { OnOk result (steps ≤ spare cells.new) }
    ensures watch_room { OnOk result (length cells.old.keys + steps ≤ vec_capacity watches.new) }
    ensures read_room { OnOk result (vec_len reads.new + steps ≤ vec_capacity reads.new) }
    ensures pair_room { OnOk result (most_pairs ≤ vec_capacity pairs.new) }
{
    cells.reserve(steps)?;
    reserve_to(watches, cells.len() + steps)?;
    reads.reserve(steps)?;
    reserve_to(pairs, most_pairs)
}

/// Makes a row at least so wide, if it has words.
fn widen_row(row: &mut Row, width: usize) -> Result<(), AllocError>
    ensures same { (a : ℕ) → is_member row.new a ≡ is_member row.old a }
    ensures longer { length row.old ≤ length row.new }
    ensures none { length row.old ≡ 0 → length row.new ≡ 0 }
    ensures wide { OnOk result (0 < length row.old → width ≤ length row.new) }
{
    if row.word_count() == 0 {
        Ok(())
    } else {
        row.widen(width)
    }
}

/// Makes each row that has words at least so wide.
fn widen_rows(rows: &mut Vec<Row>, width: usize) -> Result<(), AllocError>
    ensures rows { RowsWider rows.old.items rows.new.items }
    ensures wide { OnOk result ((b : ℕ) → IsReady rows.new.items b → width ≤ length (slice_index_or rows.new.items b [])) }
{
    let count = rows.len();
    for k in 0..count {
        widen_row(&mut rows[k], width)?;
    }
    Ok(())
}

/// Makes all rows that have words, and the set, wide enough for a number.
fn grow(rows: &mut Vec<Row>, seen: &mut Row, width: &mut usize, i: u16) -> Result<(), AllocError>
    ensures widens { Widens rows.old.items seen.old width.old rows.new.items seen.new width.new }
    ensures room { OnOk result (i / 64 < width.new) }
{
    let needed = (i / 64) as usize + 1;
    if needed <= *width {
        return Ok(());
    }
    widen_rows(rows, needed)?;
    seen.widen(needed)?;
    *width = needed;
    Ok(())
}

/// Gives a number's row its words.
fn open_row(alloc: Global, rows: &mut Vec<Row>, width: usize, i: u16) -> Result<(), AllocError>
    requires { i / 64 < width }
    ensures opens { OpensRow rows.old.items width i rows.new.items }
    ensures ready { OnOk result (IsReady rows.new.items i) }
{
    let at = i as usize;
    extend_rows(alloc, rows, at + 1)?;
    rows[at].widen(width)
}

/// Makes room for a number.
fn make_ready(
    alloc: Global,
    rows: &mut Vec<Row>,
    seen: &mut Row,
    width: &mut usize,
    i: u16,
) -> Result<(), AllocError>
    ensures widens { Widens rows.old.items seen.old width.old rows.new.items seen.new width.new }
    ensures ready { OnOk result (IsReady rows.new.items i) }
{
    grow(rows, seen, width, i)?;
    open_row(alloc, rows, *width, i)
}

/// The greatest invocation of a piece; 0 of none.
fn greatest(piece: &[Step]) -> u16 {
    let mut most = 0;
    for step in piece {
        most = most.max(step.inv);
    }
    most
}

/// Makes room for the invocations of a piece. Rows get at once the words that the greatest asks for, so that none grows twice.
pub fn make_all_ready(
    alloc: Global,
    rows: &mut Vec<Row>,
    seen: &mut Row,
    width: &mut usize,
    piece: &[Step],
) -> Result<(), AllocError>
    ensures widens { Widens rows.old.items seen.old width.old rows.new.items seen.new width.new }
    ensures ready { OnOk result ((k : ℕ) (d : Step) → k < length piece.now → IsReady rows.new.items (slice_index_or piece.now k d).inv) }
{
    grow(rows, seen, width, greatest(piece))?;
    for step in piece {
        make_ready(alloc, rows, seen, width, step.inv)?;
    }
    Ok(())
}
