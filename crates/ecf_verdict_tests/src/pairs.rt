//! The pairs of "before", the least that is before another, and the numbers of cells.

use crate::traces::{push_numbers, push_ordered, steps_of};
use ecf_conflict::{edges_of, least_before, members_of, number_cell, number_in_room, rows_before};
use ecf_graph::{least_order, row_contains};
use ecf_lang::cell::Cell;
use ecf_lang::run::Step;
use indexmap::IndexSet;
use std::alloc::{AllocError, Global};
use std::test::Fail;

/// Whether rows tell of each two members what pairs tell.
fn agree(alloc: Global, steps: &[Step], pairs: &[(u16, u16)]) -> Result<bool, AllocError> {
    let rows = rows_before(alloc, steps)?;
    let members = members_of(alloc, steps)?;
    for i in members.as_slice() {
        for j in members.as_slice() {
            if row_contains(rows.as_slice(), *j, *i) != pairs.contains(&(*i, *j)) {
                return Ok(false);
            }
        }
    }
    Ok(true)
}

/// The members of a trace, its pairs and its placing.
fn pairs_told(alloc: Global, trace: &str) -> Result<String, AllocError> {
    let steps = steps_of(alloc, trace)?;
    let edges = edges_of(alloc, steps.as_slice())?;
    let mut text = String::new(alloc);
    push_numbers(&mut text, edges.members.as_slice())?;
    text.push_str(":")?;
    for (from, to) in edges.pairs.as_slice() {
        write!(text, " {from}-{to}")?;
    }
    if !agree(alloc, steps.as_slice(), edges.pairs.as_slice())? {
        text.push_str(", and rows that tell others")?;
    }
    text.push_str(":")?;
    push_ordered(&mut text, &least_order(alloc, &edges)?)?;
    Ok(text)
}

#[test]
fn traces_have_these_pairs(rt: HostRuntime) -> Result<(), Fail> {
    for (trace, want) in [
        ("", "::"),
        // one invocation, and readers alone
        ("7wx 7rx 7wx", " 7:: 7"),
        ("2rx 1rx 2rx", " 1 2:: 1 2"),
        // the withdrawal that pays twice
        ("0rx 0ry 0wy 2rx 2ry 2wy 2wx 0wx", " 0 2: 0-2 2-0: | 0 2"),
        // the first of two readers again
        ("1rx 2rx 3wx 3wy 1ry", " 1 2 3: 1-3 2-3 3-1: 2 | 1 3"),
        // a callback before its caller
        ("2wx 0rx 0wx 0rx", " 0 2: 2-0: 2 0"),
        // a cycle of three, and all of a cell that was written twice
        (
            "0wx 2rx 2wy 4ry 4wz 0rz 4wy 0ry",
            " 0 2 4: 0-2 2-0 2-4 4-0: | 0 2 4",
        ),
    ] {
        assert_eq!(rt; pairs_told(rt.alloc(), trace)?.as_str(), want);
    }
    Ok(())
}

/// The least of a list that is before an invocation, in a trace with a cycle of three.
fn least_told(alloc: Global, rest: &[u16], inv: u16) -> Result<Option<u16>, AllocError> {
    let steps = steps_of(alloc, "0wx 2rx 2wy 4ry 4wz 0rz 1wz")?;
    Ok(least_before(steps.as_slice(), rest, inv))
}

#[test]
fn the_least_before_another(rt: HostRuntime) -> Result<(), Fail> {
    for (rest, inv, want) in [
        (&[0, 2, 4][..], 0, Some(4)),
        (&[0, 2, 4][..], 2, Some(0)),
        (&[0, 2, 4][..], 4, Some(2)),
        (&[0, 2, 4][..], 1, Some(0)),
        (&[4, 2, 0][..], 1, Some(0)),
        (&[2, 4][..], 1, Some(4)),
        (&[2][..], 1, None),
        (&[][..], 1, None),
        (&[0, 1, 2, 4][..], 9, None),
    ] {
        assert_eq!(rt; least_told(rt.alloc(), rest, inv)?, want);
    }
    Ok(())
}

/// A cell of a plain field.
fn cell(field: u8) -> Cell {
    Cell {
        object: 0,
        field,
        key: 0,
    }
}

/// The numbers that cells get one after the other, the last of them in room that was made before.
fn numbers_told(alloc: Global, fields: &[u8], last: u8) -> Result<String, AllocError> {
    let mut text = String::new(alloc);
    let mut cells = IndexSet::new(alloc);
    for field in fields {
        write!(text, "{} ", number_cell(&mut cells, cell(*field))?)?;
    }
    cells.reserve(1)?;
    write!(text, "{}", number_in_room(&mut cells, cell(last)))?;
    Ok(text)
}

#[test]
fn cells_are_numbered_as_they_come(rt: HostRuntime) -> Result<(), Fail> {
    assert_eq!(rt;
        numbers_told(rt.alloc(), &[5, 3, 5, 9, 3], 0)?.as_str(),
        "0 1 0 2 1 3"
    );
    assert_eq!(rt; numbers_told(rt.alloc(), &[5, 3], 3)?.as_str(), "0 1 1");
    Ok(())
}
