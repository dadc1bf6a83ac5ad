//! Worked traces with the verdicts that were found by hand.

use crate::traces::{push_numbers, steps_of};
use ecf_judge::{Verdict, judge};
use ecf_lang::run::Step;
use ecf_online::MAX_STEPS;
use std::alloc::{AllocError, Global};
use std::test::Fail;

/// The verdict on steps that are few enough.
pub(crate) fn judged(alloc: Global, steps: &[Step]) -> Result<Verdict, AllocError> {
    if steps.len() <= MAX_STEPS as usize {
        judge(alloc, steps)
    } else {
        Err(AllocError)
    }
}

/// A verdict as the journal has it, with numbers in place of the objects' names.
fn verdict_told(alloc: Global, trace: &str) -> Result<String, AllocError> {
    let steps = steps_of(alloc, trace)?;
    let mut text = String::new(alloc);
    match judged(alloc, steps.as_slice())? {
        Verdict::Approved(orders) => {
            text.push_str("approved")?;
            for order in orders.as_slice() {
                write!(text, " order {}", order.object)?;
                push_numbers(&mut text, order.invs.as_slice())?;
            }
        }
        Verdict::Vetoed { object, at, cycle } => {
            write!(text, "vetoed {object} at {at} cycle")?;
            push_numbers(&mut text, cycle.as_slice())?;
        }
    }
    Ok(text)
}

#[test]
fn traces_have_these_verdicts(rt: HostRuntime) -> Result<(), Fail> {
    for (trace, want) in [
        // nothing, and one invocation
        ("", "approved"),
        ("3wx 3rx", "approved"),
        // a bank that pays before it clears what it owes, and is called back: owed is o, cash c, and the thief's G and T
        (
            "0ro 0rc 0wc 1rG 1wG 1rT 1rT 1wT 2ro 2rc 2wc 3rG 3wG 3rT 2wo 0wo",
            "vetoed 0 at 8 cycle 0 2",
        ),
        // the same, cleared first
        (
            "0ro 0wo 0rc 0wc 1rG 1wG 1rT 1rT 1wT 2ro 2wo 2rc 2wc 3rG 3wG 3rT",
            "approved order 0 0 2 order 1 1 3",
        ),
        // a callback before its caller's first step
        ("2wx 0rx 0wx 0rx", "approved order 0 2 0"),
        // a cycle of three and none of two
        ("0wx 2rx 2wy 4ry 4wz 0rz", "vetoed 0 at 6 cycle 0 2 4"),
        // not together, yet free
        ("0wx 2wz 0wy", "approved order 0 0 2"),
        // a lost update, and equal values
        ("0wx 2rx 2wx 0wx", "vetoed 0 at 4 cycle 0 2"),
        ("0wx 2wx 0wx", "vetoed 0 at 3 cycle 0 2"),
        // an object that calls itself from outside
        ("0wx 1rx 1wx 1rx 0rx 0wx 0rx", "vetoed 0 at 5 cycle 0 1"),
        // two readers and a writer, and the first of two readers again elsewhere
        ("4rx 2rx 0wx", "approved order 0 2 4 0"),
        ("0rx 2rx 4wx 4wy 0ry", "vetoed 0 at 5 cycle 0 4"),
        // two objects, of which the least is named, whichever went wrong first
        ("0wG 2wG 0wG 1wx 3wx 1wx", "vetoed 0 at 3 cycle 1 3"),
        // two cycles that meet, and one that the least of the rest is no part of
        ("6wx 2wx 6wx 4wy 6wy 0wz 4wz 0wz", "vetoed 0 at 3 cycle 0 4"),
        ("2wx 4wx 2wx 4wy 0wy", "vetoed 0 at 3 cycle 2 4"),
        // the last object, and the greatest numbers of invocations
        ("65535w? 65534w?", "approved order 255 65535 65534"),
    ] {
        assert_eq!(rt; verdict_told(rt.alloc(), trace)?.as_str(), want, "{trace}");
    }
    Ok(())
}
