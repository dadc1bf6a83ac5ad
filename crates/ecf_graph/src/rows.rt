//! Lists of rows: who stands in which row, more rows, and rows as rising lists.

ghost use Rattle.std.specs.Prelude.{◌≡◌, ◌≤◌, ◌==◌, ℕ, List, [], length, slice_index_or, max, IfOk, OnOk, vec_len};
ghost use Rattle.std.specs.List.{list_any};
ghost use Rattle.ecf_graph.specs.Rows.{is_in_row, is_member, numbers_below};

use crate::row::Row;
use std::alloc::{AllocError, Global};

/// Makes it at least so many rows, the new ones empty.
pub fn extend_rows(alloc: Global, rows: &mut Vec<Row>, most: usize) -> Result<(), AllocError>
    ensures same { (k i : ℕ) → is_in_row rows.new.items k i ≡ is_in_row rows.old.items k i }
    ensures words { (k : ℕ) → length (slice_index_or rows.new.items k []) ≡ length (slice_index_or rows.old.items k []) }
    ensures long { OnOk result (vec_len rows.new ≡ max most (vec_len rows.old)) }
{
    'rows: while rows.len() < most {
        rows.push(Row::new(alloc))?;
    }
    Ok(())
}

/// Whether i is in the row at k.
pub fn row_contains(rows: &[Row], k: u16, i: u16) -> bool
    ensures { result ≡ is_in_row rows.now k i }
{
    let at = k as usize;
    if at < rows.len() {
        rows[at].contains(i)
    } else {
        false
    }
}

/// The numbers of a list as a row.
pub fn row_of(alloc: Global, list: &[u16]) -> Result<Row, AllocError>
    ensures { IfOk result (λ r. (i : ℕ) → is_member r i ≡ list_any (λ x. x == i) list.now) }
{
    let mut row = Row::new(alloc);
    for i in list {
        row.insert(*i)?;
    }
    Ok(row)
}

/// The members below a number, rising.
pub fn list_below(alloc: Global, row: &Row, count: u32) -> Result<Vec<u16>, AllocError>
    requires { count ≤ 65536 }
    ensures { IfOk result (λ v. v.items ≡ numbers_below (is_member row.now) count) }
{
    let mut list = Vec::new(alloc);
    for i in 0..count {
        let number = i as u16;
        if row.contains(number) {
            list.push(number)?;
        }
    }
    Ok(list)
}
