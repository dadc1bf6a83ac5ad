//! What no clause says: that each call gives an answer where there is memory, and that the clauses mean what they should.

ghost use Rattle.std.specs.Prelude.{◌≤◌, IsTrue, length};
ghost use Rattle.ecf_swap.specs.WrittenOut.{is_order_of};

use crate::{bring_together, swap_at, trace_of};
use ecf_lang::cell::Cell;
use ecf_lang::limits::MAX_SWAPPED_STEPS;
use ecf_lang::run::Step;
use std::alloc::{AllocError, Global};
use std::test::*;

const OWED: Cell = Cell {
    object: 0,
    field: 0,
    key: 1,
};

const CASH: Cell = Cell {
    object: 0,
    field: 1,
    key: 0,
};

const COUNT: Cell = Cell {
    object: 3,
    field: 0,
    key: 0,
};

/// A read by an invocation.
fn reads(inv: u16, cell: Cell) -> Step {
    Step {
        inv,
        write: false,
        cell,
        value: 0,
    }
}

/// A write by an invocation.
fn writes(inv: u16, cell: Cell) -> Step {
    Step {
        inv,
        write: true,
        cell,
        value: 0,
    }
}

/// The places for steps and an order that are written out.
fn together(alloc: Global, steps: &[Step], order: &[u16]) -> Result<Vec<u32>, AllocError>
    requires few { length steps.now ≤ MAX_SWAPPED_STEPS }
    requires fits { IsTrue (is_order_of order.now steps.now) }
{
    bring_together(alloc, steps, order)
}

/// Whether swaps at these places, one after the other, are all legal.
fn are_legal(steps: &mut [Step], places: &[u32]) -> bool {
    let mut legal = true;
    for place in places {
        legal = swap_at(steps, *place as usize) && legal;
    }
    legal
}

#[test]
fn a_trace_has_the_steps_of_its_object(rt: HostRuntime) -> Result<(), Fail> {
    let alloc = rt.alloc();
    let steps = [
        reads(0, OWED),
        writes(1, COUNT),
        reads(2, CASH),
        writes(0, COUNT),
    ];
    assert_eq!(rt;
        trace_of(alloc, &steps, 0)?.as_slice(),
        [steps[0], steps[2]].as_slice()
    );
    assert_eq!(rt;
        trace_of(alloc, &steps, 3)?.as_slice(),
        [steps[1], steps[3]].as_slice()
    );
    assert_eq!(rt; trace_of(alloc, &steps, 1)?.len(), 0);
    Ok(())
}

#[test]
fn a_swap_is_legal_or_changes_nothing(rt: HostRuntime) -> Result<(), Fail> {
    for (first, second, legal) in [
        (reads(0, CASH), reads(1, CASH), true),
        (reads(0, CASH), writes(1, CASH), false),
        (writes(0, CASH), reads(1, CASH), false),
        (writes(0, CASH), writes(1, CASH), false),
        (writes(0, CASH), writes(1, OWED), true),
        (reads(0, CASH), reads(0, OWED), false),
    ] {
        let mut steps = [reads(5, COUNT), first, second];
        assert_eq!(rt; swap_at(&mut steps, 1), legal);
        assert_eq!(rt; steps[1], if legal { second } else { first });
        assert_eq!(rt; steps[2], if legal { first } else { second });
        assert_eq!(rt; swap_at(&mut steps, 2), false);
        assert_eq!(rt; swap_at(&mut steps, usize::MAX), false);
    }
    assert_eq!(rt; swap_at(&mut [], 0), false);
    Ok(())
}

#[test]
#[tactic(auto, unfolding(ecf_verdicts::specs::Conflicts::conflicts, ecf_verdicts::specs::Conflicts::same_cell))]
fn one_swap_brings_a_callback_to_either_side(rt: HostRuntime) -> Result<(), Fail> {
    let alloc = rt.alloc();
    let steps = [
        Step {
            inv: 0,
            write: true,
            cell: OWED,
            value: 1,
        },
        Step {
            inv: 2,
            write: true,
            cell: COUNT,
            value: 3,
        },
        Step {
            inv: 0,
            write: true,
            cell: CASH,
            value: 2,
        },
    ];
    assert_eq!(rt;
        together(alloc, &steps, &[0, 2])?.as_slice(),
        [1].as_slice()
    );
    assert_eq!(rt;
        together(alloc, &steps, &[2, 0])?.as_slice(),
        [0].as_slice()
    );
    Ok(())
}

#[test]
#[tactic(auto, unfolding(ecf_verdicts::specs::Conflicts::conflicts, ecf_verdicts::specs::Conflicts::same_cell))]
fn readers_in_turn_are_parted(rt: HostRuntime) -> Result<(), Fail> {
    let alloc = rt.alloc();
    let first = Step {
        inv: 0,
        write: false,
        cell: CASH,
        value: 20,
    };
    let second = Step {
        inv: 1,
        write: false,
        cell: CASH,
        value: 20,
    };
    let mut steps = [first, second, first, second];
    assert_eq!(rt;
        together(alloc, &steps, &[0, 1])?.as_slice(),
        [1].as_slice()
    );
    let places = together(alloc, &steps, &[1, 0])?;
    assert_eq!(rt; places.as_slice(), [0, 2, 1].as_slice());
    assert_eq!(rt; are_legal(&mut steps, places.as_slice()), true);
    assert_eq!(rt; steps.as_slice(), [second, second, first, first].as_slice());
    Ok(())
}
