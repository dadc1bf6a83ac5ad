//! Worked traces, fed to a monitor whole, by ones and in uneven pieces.

use crate::traces::{feed_all, push_ordered, steps_of};
use ecf_online::Monitor;
use std::alloc::{AllocError, Global};
use std::test::Fail;

/// What a monitor tells of a trace: steps, pairs, the first part that isn't free, and the placing.
fn told(alloc: Global, trace: &str, size: usize, uneven: bool) -> Result<String, AllocError> {
    let steps = steps_of(alloc, trace)?;
    let mut monitor = Monitor::new(alloc);
    let first = feed_all(&mut monitor, steps.as_slice(), size, uneven)?;
    let mut text = String::new(alloc);
    write!(
        text,
        "{} steps {} pairs",
        monitor.steps(),
        monitor.edge_count()
    )?;
    match first {
        Some(at) => write!(text, " not free at {at}:")?,
        None => write!(text, " free:")?,
    }
    push_ordered(&mut text, &monitor.order(alloc)?)?;
    Ok(text)
}

#[test]
fn pieces_tell_what_the_whole_tells(rt: HostRuntime) -> Result<(), Fail> {
    for (trace, want) in [
        ("", "0 steps 0 pairs free:"),
        ("7wx 7rx 7wx", "3 steps 0 pairs free: 7"),
        // the first of two readers again, and before it comes
        (
            "1rx 2rx 3wx 3wy 1ry",
            "5 steps 3 pairs not free at 5: 2 | 1 3",
        ),
        ("1rx 2rx 3wx 3wy", "4 steps 2 pairs free: 1 2 3"),
        // the withdrawal that pays twice, and cleared first
        (
            "0rx 0ry 0wy 2rx 2ry 2wy 2wx 0wx",
            "8 steps 4 pairs not free at 8: | 0 2",
        ),
        (
            "0rx 0wx 0ry 0wy 2rx 2wx 2ry 2wy",
            "8 steps 4 pairs free: 0 2",
        ),
        // a callback before its caller
        ("2wx 0rx 0wx 0rx", "4 steps 2 pairs free: 2 0"),
        // a cycle of three and a step behind it
        (
            "0wx 2rx 2wy 4ry 4wz 0rz 1wq",
            "7 steps 3 pairs not free at 6: 1 | 0 2 4",
        ),
        // far numbers
        (
            "65535wx 64rx 64wy 65535wy",
            "4 steps 2 pairs not free at 4: | 64 65535",
        ),
    ] {
        for (size, uneven) in [(99, false), (1, false), (2, false), (1, true), (3, true)] {
            assert_eq!(rt;
                told(rt.alloc(), trace, size, uneven)?.as_str(),
                want,
                "by {size}"
            );
        }
    }
    Ok(())
}
