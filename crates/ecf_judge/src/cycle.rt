//! The named cycle of invocations that can't be placed: a walk goes from the least of them each time to the least that is
//! before the present one, until it comes to one again.

ghost use Rattle.std.specs.Prelude.{◌≡◌, ◌<◌, ◌≤◌, ◌++◌, ℕ, List, [], find, reverse, length, take, drop, IfOk};
ghost use Rattle.ecf_graph.specs.Rows.{is_in_row};
ghost use Rattle.ecf_judge.specs.Walks.{RowsTell};
ghost use Rattle.ecf_lang.specs.declared.run.Step.{Step};
ghost use Rattle.ecf_verdicts.specs.Before.{before};
ghost use Rattle.ecf_verdicts.specs.Cycles.{cycle_in, from, minimum, rotation_to_minimum, until, up_to, walk};

use ecf_conflict::rows_before;
use ecf_graph::{Row, row_contains};
use ecf_lang::run::Step;
use std::alloc::{AllocError, Global};

/// The first of the rest that is in the row of j.
fn least_before(rows: &[Row], rest: &[u16], j: u16) -> Option<u16>
    ensures { result ≡ find (λ i. is_in_row rows.now j i) rest.now }
{
    for i in rest {
        if row_contains(rows, j, *i) {
            return Some(*i);
        }
    }
    None
}

/// The path from its end back to the first i, with it.
fn back_to(alloc: Global, path: Vec<u16>, i: u16) -> Result<Vec<u16>, AllocError>
    ensures { IfOk result (λ v. v.items ≡ up_to i (reverse path.items)) }
{
    let mut path = path;
    let mut part = Vec::new(alloc);
    'back: while let Some(j) = path.pop() {
        part.push(j)?;
        if i == j {
            return Ok(part);
        }
    }
    Ok(part)
}

/// The walk from an invocation of the rest: its members from the last back to the one that it came to again.
fn walk(alloc: Global, rows: &[Row], rest: &[u16], start: u16) -> Result<Vec<u16>, AllocError>
    ensures { (t : List Step) → RowsTell t rows.now → IfOk result (λ v. v.items ≡ walk t rest.now (length rest.now) start []) }
{
    let mut path = Vec::new(alloc);
    let mut visited = Row::new(alloc);
    let mut present = start;
    for k in 0..rest.len() {
        path.push(present)?;
        visited.insert(present)?;
        match least_before(rows, rest, present) {
            None => return Ok(Vec::new(alloc)),
            Some(i) => {
                if visited.contains(i) {
                    return back_to(alloc, path, i);
                }
                present = i;
            }
        }
    }
    Ok(Vec::new(alloc))
}

/// The least of a number and a list.
fn minimum(first: u16, rest: &[u16]) -> u16
    ensures { result ≡ minimum first rest.now }
{
    let mut least = first;
    for i in rest {
        least = least.min(*i);
    }
    least
}

/// The place of the first i, or the length.
fn place_of(list: &[u16], i: u16) -> usize
    ensures from { drop result list.now ≡ from i list.now }
    ensures until { take result list.now ≡ until i list.now }
    ensures within { result ≤ length list.now }
{
    for place in 0..list.len() {
        if i == list[place] {
            return place;
        }
    }
    list.len()
}

/// The place of the least; 0 in an empty list.
fn place_of_least(list: &[u16]) -> usize
    ensures least { drop result list.now ++ take result list.now ≡ rotation_to_minimum list.now }
    ensures within { result ≤ length list.now }
{
    match list {
        [] => 0,
        [first, rest @ ..] => place_of(list, minimum(*first, rest)),
    }
}

/// Turns a cycle so that it begins with its least member.
fn begin_with_least(cycle: &mut [u16])
    ensures { cycle.new ≡ rotation_to_minimum cycle.old }
{
    let place = place_of_least(cycle);
    cycle.rotate_left(place);
}

/// The named cycle of a trace, of the invocations of it that can't be placed.
pub fn cycle_in(alloc: Global, trace: &[Step], rest: &[u16]) -> Result<Vec<u16>, AllocError>
    ensures { IfOk result (λ v. v.items ≡ cycle_in trace.now rest.now) }
{
    match rest {
        [] => Ok(Vec::new(alloc)),
        [first, ..] => {
            let rows = rows_before(alloc, trace)?;
            let mut cycle = walk(alloc, rows.as_slice(), rest, *first)?;
            begin_with_least(cycle.as_mut_slice());
            Ok(cycle)
        }
    }
}
