//! Rows that are claimed, given back and placed, told in a line of text.

use ecf_core::book::RowState;
use ecf_lang::limits::{MAX_STALES, MAX_TRANSACTIONS};
use ecf_lang::tx::{Tx, TxRef};
use ecf_rows::Rows;
use sqlite_items::Items;
use std::alloc::{AllocError, Global};
use std::sync::Arc;
use std::test::Fail;

/// What is done to the rows.
#[derive(Clone, Copy)]
enum Step {
    /// The least row is claimed, if there is one, under this ticket.
    Claim(u32),
    Stale(u32),
    Free(u32),
    /// A Claimed row is placed at this number.
    Place(u32, u32),
    /// The first open row is placed at this number.
    Finish(u32),
}

fn transactions(alloc: Global, submitters: &[u32]) -> Result<Vec<TxRef>, AllocError> {
    let mut txs = Vec::new(alloc);
    for submitter in submitters {
        let tx = Tx {
            submitter: *submitter,
            fuel: 1,
            calls: Items::new(alloc),
        };
        txs.push(Arc::new(alloc, tx)?)?;
    }
    Ok(txs)
}

/// Rows that were opened with none and then extended.
fn rows_of(alloc: Global, submitters: &[u32]) -> Result<Rows, AllocError> {
    let txs = transactions(alloc, submitters)?;
    let mut rows = Rows::open(alloc, &[])?;
    if txs.len() <= MAX_TRANSACTIONS {
        rows.extend(alloc, txs.as_slice())?;
    }
    Ok(rows)
}

fn claim(rows: &mut Rows, ticket: u32) {
    if let Some(row) = rows.least() {
        rows.claim(row, ticket);
    }
}

fn stale(rows: &mut Rows, row: u32) {
    if let RowState::Claimed { stales, .. } = rows.state(row) {
        if stales < MAX_STALES {
            rows.stale(row);
        }
    }
}

fn place(rows: &mut Rows, row: u32, seq: u32) {
    if let RowState::Claimed { .. } = rows.state(row) {
        rows.place(row, seq);
    }
}

fn finish(rows: &mut Rows, seq: u32) {
    if let Some(row) = rows.first_open(0) {
        rows.place(row, seq);
    }
}

fn take(rows: &mut Rows, step: Step) {
    match step {
        Step::Claim(ticket) => claim(rows, ticket),
        Step::Stale(row) => stale(rows, row),
        Step::Free(row) => rows.free(row),
        Step::Place(row, seq) => place(rows, row, seq),
        Step::Finish(seq) => finish(rows, seq),
    }
}

fn write_state(text: &mut String, state: RowState) -> Result<(), AllocError> {
    match state {
        RowState::Free { claims } => write!(text, "F{claims} ")?,
        RowState::Claimed {
            ticket,
            claims,
            stales,
        } => write!(text, "C{ticket}.{claims}.{stales} ")?,
        RowState::Done { seq } => write!(text, "D{seq} ")?,
    }
    Ok(())
}

/// The rows' states, the least that may be claimed, and whether one is Claimed.
fn write_rows(text: &mut String, rows: &Rows) -> Result<(), AllocError> {
    for row in 0..rows.len() {
        write_state(text, rows.state(row))?;
    }
    match rows.least() {
        Some(row) => write!(text, "least {row}")?,
        None => write!(text, "none")?,
    }
    if rows.any_claimed() {
        write!(text, ", claimed")?;
    }
    write!(text, "; ")?;
    Ok(())
}

/// What the rows of these submitters are like after each step.
fn told(alloc: Global, submitters: &[u32], steps: &[Step]) -> Result<String, AllocError> {
    let mut rows = rows_of(alloc, submitters)?;
    let mut text = String::new(alloc);
    for step in steps {
        take(&mut rows, *step);
        write_rows(&mut text, &rows)?;
    }
    Ok(text)
}

#[test]
fn a_submitters_rows_come_in_their_order(rt: HostRuntime) -> Result<(), Fail> {
    let steps = [
        Step::Claim(1),
        Step::Claim(2),
        Step::Claim(3),
        Step::Stale(0),
        Step::Place(2, 1),
        Step::Place(0, 2),
        Step::Claim(3),
    ];
    let text = told(rt.alloc(), &[7, 7, 8], &steps)?;
    assert_eq!(rt;
        text.as_str(),
        "C1.1.0 F0 F0 least 2, claimed; C1.1.0 F0 C2.1.0 none, claimed; C1.1.0 F0 C2.1.0 none, claimed; \
         C1.1.1 F0 C2.1.0 none, claimed; C1.1.1 F0 D1 none, claimed; D2 F0 D1 least 1; D2 C3.1.0 D1 none, claimed; "
    );
    Ok(())
}

#[test]
fn a_row_is_claimed_four_times_and_placed_at_the_end(rt: HostRuntime) -> Result<(), Fail> {
    let steps = [
        Step::Claim(1),
        Step::Free(0),
        Step::Claim(2),
        Step::Free(0),
        Step::Claim(3),
        Step::Free(0),
        Step::Claim(4),
        Step::Free(0),
        Step::Finish(1),
        Step::Finish(2),
    ];
    let text = told(rt.alloc(), &[3, 3], &steps)?;
    assert_eq!(rt;
        text.as_str(),
        "C1.1.0 F0 none, claimed; F1 F0 least 0; C2.2.0 F0 none, claimed; F2 F0 least 0; \
         C3.3.0 F0 none, claimed; F3 F0 least 0; C4.4.0 F0 none, claimed; F4 F0 none; D1 F0 least 1; D1 D2 none; "
    );
    Ok(())
}

/// Many rows of as many submitters, of which the first are placed.
fn least_of_many(alloc: Global, count: u32, placed: u32) -> Result<Option<u32>, AllocError> {
    let mut submitters = Vec::new(alloc);
    for submitter in 0..count {
        submitters.push(submitter)?;
    }
    let mut rows = rows_of(alloc, submitters.as_slice())?;
    for row in 0..placed {
        claim(&mut rows, row);
        place(&mut rows, row, row);
    }
    Ok(rows.least())
}

#[test]
fn the_least_of_many_is_found(rt: HostRuntime) -> Result<(), Fail> {
    for (count, placed, want) in [
        (0, 0, None),
        (1, 0, Some(0)),
        (64, 63, Some(63)),
        (65, 64, Some(64)),
        (9_000, 4_097, Some(4_097)),
        (200_000, 8_192, Some(8_192)),
        (200_000, 200_000, None),
    ] {
        assert_eq!(rt; least_of_many(rt.alloc(), count, placed)?, want);
    }
    Ok(())
}
