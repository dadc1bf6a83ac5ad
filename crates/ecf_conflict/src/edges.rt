//! The pairs of "before" as a list.

ghost use Rattle.std.specs.Prelude.{◌≡◌, ◌==◌, ◌&&◌, ◌++◌, not, ℕ, List, [], IfOk, OnOk};
ghost use Rattle.ecf_conflict.specs.Pairs.{pairs_from, pairs_of};
ghost use Rattle.ecf_graph.specs.Rows.{is_in_row};
ghost use Rattle.ecf_verdicts.specs.Before.{before};
ghost use Rattle.ecf_verdicts.specs.Traces.{members};

use crate::members::members_of;
use crate::seen::rows_before;
use ecf_graph::{Edges, Row, row_contains};
use ecf_lang::run::Step;
use ecf_verdicts::members_are;
use std::alloc::{AllocError, Global};

/// Whether i and j differ and i is in the row of j.
fn is_pair(rows: &[Row], i: u16, j: u16) -> bool
    ensures { result ≡ (not (i == j) && is_in_row rows.now j i) }
{
    if i == j {
        false
    } else {
        row_contains(rows, j, i)
    }
}

/// Adds the pairs whose first is i.
fn add_pairs(
    pairs: &mut Vec<(u16, u16)>,
    rows: &[Row],
    members: &[u16],
    i: u16,
) -> Result<(), AllocError>
    ensures { OnOk result (pairs.new.items ≡ pairs.old.items ++ pairs_from (λ a b. not (a == b) && is_in_row rows.now b a) members.now i) }
{
    for j in members {
        if is_pair(rows, i, *j) {
            pairs.push((i, *j))?;
        }
    }
    Ok(())
}

/// All pairs of the rows, by their firsts.
fn pairs_in(alloc: Global, rows: &[Row], members: &[u16]) -> Result<Vec<(u16, u16)>, AllocError>
    ensures { IfOk result (λ v. v.items ≡ pairs_of (λ a b. not (a == b) && is_in_row rows.now b a) members.now) }
{
    let mut pairs = Vec::new(alloc);
    for i in members {
        add_pairs(&mut pairs, rows, members, *i)?;
    }
    Ok(pairs)
}

/// The pairs of some invocations that "before" has, by their firsts.
fn pairs_before(
    alloc: Global,
    steps: &[Step],
    members: &[u16],
) -> Result<Vec<(u16, u16)>, AllocError>
    ensures { IfOk result (λ v. v.items ≡ pairs_of (before steps.now) members.now) }
{
    let rows = rows_before(alloc, steps)?;
    pairs_in(alloc, rows.as_slice(), members)
}

/// The invocations of a trace and exactly the pairs of them that "before" has.
pub fn edges_of(alloc: Global, steps: &[Step]) -> Result<Edges, AllocError>
    ensures members { IfOk result (λ e. e.members.items ≡ members steps.now) }
    ensures pairs { IfOk result (λ e. e.pairs.items ≡ pairs_of (before steps.now) (members steps.now)) }
{
    members_are();
    let members = members_of(alloc, steps)?;
    let pairs = pairs_before(alloc, steps, members.as_slice())?;
    Ok(Edges { members, pairs })
}
