//! Rows of bits and lists of rows.

use crate::traces::{push_numbers, push_ordered};
use ecf_graph::{Row, extend_rows, list_below, order_rows, row_contains, row_of};
use std::alloc::{AllocError, Global};
use std::test::Fail;

/// The members of a row.
fn push_row(alloc: Global, text: &mut String, row: &Row) -> Result<(), AllocError> {
    push_numbers(text, list_below(alloc, row, 65_536)?.as_slice())?;
    text.push_str(";")
}

/// What each call says of these rows, one after the other.
fn rows_told(alloc: Global) -> Result<String, AllocError> {
    let mut text = String::new(alloc);
    let mut row = row_of(alloc, &[65_535, 64, 0, 63])?;
    for i in [0, 1, 63, 64, 65, 65_535] {
        write!(text, "{} ", row.contains(i))?;
    }
    row.remove(63);
    row.insert(7)?;
    push_row(alloc, &mut text, &row.copy(alloc)?)?;
    push_numbers(&mut text, list_below(alloc, &row, 65)?.as_slice())?;
    let mut other = Row::new(alloc);
    write!(text, "; {} ", other.intersects(&row))?;
    other.widen(2)?;
    write!(text, "{} ", other.word_count())?;
    other.union_with(&row_of(alloc, &[5, 100])?)?;
    write!(text, "{};", other.intersects(&row))?;
    other.union_with(&row)?;
    push_row(alloc, &mut text, &other)?;
    let mut rows = Vec::new(alloc);
    extend_rows(alloc, &mut rows, 3)?;
    rows.push(other)?;
    for (k, i) in [(3, 100), (2, 100), (9, 100)] {
        write!(text, " {}", row_contains(rows.as_slice(), k, i))?;
    }
    text.push_str(";")?;
    push_ordered(&mut text, &order_rows(alloc, rows.as_slice(), &[3, 5, 7])?)?;
    Ok(text)
}

#[test]
fn rows_hold_their_members(rt: HostRuntime) -> Result<(), Fail> {
    let want =
        "true false true true false true  0 7 64 65535; 0 7 64; false 2 false; 0 5 7 64 100 65535; true false false; 5 7 3";
    assert_eq!(rt; rows_told(rt.alloc())?.as_str(), want);
    Ok(())
}
