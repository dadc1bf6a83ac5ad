//! All traces of up to six steps, of three invocations on two cells: each is judged, ordered by its pairs, and brought together
//! step by step where it is free, against orders found by trial. Those of up to five steps are fed to monitors too, by ones and in
//! uneven pieces.

use crate::traces::feed_all;
use crate::verdicts::judged;
use ecf_conflict::edges_of;
use ecf_graph::{Ordered, check_cycle, check_order, least_order};
use ecf_judge::Verdict;
use ecf_lang::cell::Cell;
use ecf_lang::receipt::Order;
use ecf_lang::run::Step;
use ecf_online::Monitor;
use ecf_swap::swap_at;
use std::alloc::{AllocError, Global};
use std::test::Fail;

/// The most steps of a trace that is fed to monitors; with one more the test would take a minute.
const MOST_FED: usize = 5;

/// All orders of three invocations, in the order of a dictionary.
const ORDERS: [[u16; 3]; 6] = [
    [0, 1, 2],
    [0, 2, 1],
    [1, 0, 2],
    [1, 2, 0],
    [2, 0, 1],
    [2, 1, 0],
];

/// Whether a step of i stands earlier than a conflicting step of j.
fn is_before(steps: &[Step], i: u16, j: u16) -> bool {
    for first in 0..steps.len() {
        for second in first..steps.len() {
            let one = &steps[first];
            let other = &steps[second];
            if one.inv == i
                && other.inv == j
                && one.cell == other.cell
                && (one.write || other.write)
            {
                return true;
            }
        }
    }
    false
}

/// Whether an order has nothing before what it is before.
fn keeps_before(steps: &[Step], order: &[u16; 3]) -> bool {
    !is_before(steps, order[1], order[0])
        && !is_before(steps, order[2], order[0])
        && !is_before(steps, order[2], order[1])
}

/// The first order that keeps what is before what.
fn first_order(steps: &[Step]) -> Option<[u16; 3]> {
    for order in &ORDERS {
        if keeps_before(steps, order) {
            return Some(*order);
        }
    }
    None
}

/// The number of steps of the shortest first part without such an order.
fn shortest_part(steps: &[Step]) -> usize {
    for end in 0..steps.len() {
        if first_order(&steps[..end]).is_none() {
            return end;
        }
    }
    steps.len()
}

/// Whether each is before the next, the last before the first, and the first the least.
fn is_cycle(steps: &[Step], cycle: &[u16]) -> bool {
    match cycle {
        [a, b] => a < b && is_before(steps, *a, *b) && is_before(steps, *b, *a),
        [a, b, c] => {
            a < b
                && a < c
                && is_before(steps, *a, *b)
                && is_before(steps, *b, *c)
                && is_before(steps, *c, *a)
        }
        _ => false,
    }
}

/// The place of an invocation in an order.
fn rank(order: &[u16; 3], inv: u16) -> usize {
    if order[0] == inv {
        0
    } else if order[1] == inv {
        1
    } else {
        2
    }
}

/// Whether legal swaps bring the steps into the blocks of an order: each step in turn goes to the left past those of later
/// blocks.
fn comes_together(steps: &mut [Step], order: &[u16; 3]) -> bool {
    for last in 0..steps.len() {
        for back in 0..last {
            let place = last - back;
            if rank(order, steps[place].inv) < rank(order, steps[place - 1].inv)
                && !swap_at(steps, place - 1)
            {
                return false;
            }
        }
    }
    for place in 1..steps.len() {
        if rank(order, steps[place].inv) < rank(order, steps[place - 1].inv) {
            return false;
        }
    }
    true
}

/// The members of a trace in an order.
fn members_in(alloc: Global, steps: &[Step], order: &[u16; 3]) -> Result<Vec<u16>, AllocError> {
    let mut members = Vec::new(alloc);
    for inv in order {
        if steps.iter().any(|step| step.inv == *inv) {
            members.push(*inv)?;
        }
    }
    Ok(members)
}

/// Whether the orders of an approval are those of one object, which is listed where it has several members.
fn are_orders(orders: &[Order], members: &[u16]) -> bool {
    match orders {
        [] => members.len() < 2,
        [order] => order.object == 0 && members.len() > 1 && order.invs.as_slice() == members,
        _ => false,
    }
}

/// Whether an order is all of these members.
fn are_all(ordered: &Ordered, members: &[u16]) -> bool {
    match ordered {
        Ordered::All(placed) => placed.as_slice() == members,
        Ordered::Stuck { .. } => false,
    }
}

/// Whether monitors that are fed the trace by ones and in uneven pieces tell what `is_told` asks for.
fn is_watched(
    alloc: Global,
    steps: &[Step],
    first: Option<u32>,
    members: Option<&[u16]>,
) -> Result<bool, AllocError> {
    if steps.len() > MOST_FED {
        return Ok(true);
    }
    Ok(
        is_told(alloc, steps, false, first, members)?
            && is_told(alloc, steps, true, first, members)?,
    )
}

/// Whether a monitor that is fed the trace in pieces tells this first part that isn't free, and this order of its members,
/// where there is one.
fn is_told(
    alloc: Global,
    steps: &[Step],
    uneven: bool,
    first: Option<u32>,
    members: Option<&[u16]>,
) -> Result<bool, AllocError> {
    let mut monitor = Monitor::new(alloc);
    if feed_all(&mut monitor, steps, 1, uneven)? != first {
        return Ok(false);
    }
    let ordered = monitor.order(alloc)?;
    Ok(match members {
        Some(members) => are_all(&ordered, members),
        None => matches!(ordered, Ordered::Stuck { .. }),
    })
}

/// Whether an approval names these members in their order, by the pairs and by monitors too, and the trace comes together in it.
fn is_free(
    alloc: Global,
    steps: &mut [Step],
    orders: &[Order],
    order: &[u16; 3],
) -> Result<bool, AllocError> {
    let list = members_in(alloc, steps, order)?;
    let members = list.as_slice();
    let edges = edges_of(alloc, steps)?;
    let ordered = are_all(&least_order(alloc, &edges)?, members) && check_order(members, &edges);
    let watched = is_watched(alloc, steps, None, Some(members))?;
    Ok(are_orders(orders, members) && ordered && watched && comes_together(steps, order))
}

/// Whether a veto names the shortest part and a cycle, by the pairs and by monitors too.
fn is_vetoed(
    alloc: Global,
    steps: &[Step],
    object: u8,
    at: u32,
    cycle: &[u16],
) -> Result<bool, AllocError> {
    let edges = edges_of(alloc, steps)?;
    let circles = is_cycle(steps, cycle) && check_cycle(cycle, &edges);
    let watched = is_watched(alloc, steps, Some(at), None)?;
    Ok(object == 0 && at as usize == shortest_part(steps) && circles && watched)
}

/// Whether what is told of a trace of object 0 is what trying all orders gives.
fn is_right(alloc: Global, steps: &mut [Step]) -> Result<bool, AllocError> {
    match (judged(alloc, steps)?, first_order(steps)) {
        (Verdict::Approved(orders), Some(order)) => {
            is_free(alloc, steps, orders.as_slice(), &order)
        }
        (Verdict::Vetoed { object, at, cycle }, None) => {
            is_vetoed(alloc, steps, object, at, cycle.as_slice())
        }
        _ => Ok(false),
    }
}

/// The step of a number below 12: three invocations, two cells, a read or a write.
fn step_of(number: u32) -> Step {
    Step {
        inv: (number % 3) as u16,
        write: number / 3 % 2 == 1,
        cell: Cell {
            object: 0,
            field: (number / 6 % 2) as u8,
            key: 0,
        },
        value: 0,
    }
}

/// The trace of so many steps that has this number.
fn trace_of_number(alloc: Global, length: usize, number: u32) -> Result<Vec<Step>, AllocError> {
    let mut steps = Vec::new(alloc);
    let mut left = number;
    for k in 0..length {
        steps.push(step_of(left % 12))?;
        left /= 12;
    }
    Ok(steps)
}

/// Of all traces of a length that begin on the first cell, how many aren't told right. One that begins on the second cell is
/// one that begins on the first, with the cells' names changed.
fn wrong_traces(alloc: Global, length: usize, count: u32) -> Result<u32, AllocError> {
    let mut wrong: u32 = 0;
    for number in 0..count {
        if number % 12 < 6 {
            let mut trace = trace_of_number(alloc, length, number)?;
            if !is_right(alloc, trace.as_mut_slice())? {
                wrong = wrong.saturating_add(1);
            }
        }
    }
    Ok(wrong)
}

#[test]
fn all_short_traces_are_told_right(rt: HostRuntime) -> Result<(), Fail> {
    for (length, count) in [
        (0, 1),
        (1, 12),
        (2, 144),
        (3, 1_728),
        (4, 20_736),
        (5, 248_832),
        (6, 2_985_984),
    ] {
        assert_eq!(rt;
            wrong_traces(rt.alloc(), length, count)?,
            0,
            "of {length} steps"
        );
    }
    Ok(())
}
