//! Runs of one method against worked values.

use crate::reports::report_in;
use std::alloc::{AllocError, Global};
use std::process::Abort;
use std::test::Fail;

/// The report of a call of a method with this body, over a field that holds 7.
fn report_of_body(rt: &impl Abort, alloc: Global, body: &str, fuel: u32) -> Result<String, Fail> {
    let text = format!(in alloc; "object A {{ num n; method go(p: num): num {{ {body} }} }}")?;
    report_in(rt, alloc, text.as_str(), fuel, &[(0, 1)])
}

const COUNTER: &str = "n = n + p; return n;";

#[test]
fn a_body_gives_its_answer(rt: HostRuntime) -> Result<(), Fail> {
    for (body, fuel, want) in [
        (
            COUNTER,
            100,
            "Answer(8) fuel 14 0r0.0=7 0w0.0=8 0r0.0=8; reads 0.0=7; writes 0.0=8; own 14 gave 8",
        ),
        (
            COUNTER,
            14,
            "Answer(8) fuel 14 0r0.0=7 0w0.0=8 0r0.0=8; reads 0.0=7; writes 0.0=8; own 14 gave 8",
        ),
        (
            COUNTER,
            13,
            "OutOfFuel fuel 13 0r0.0=7 0w0.0=8; reads 0.0=7; own 11",
        ),
        (COUNTER, 1, "OutOfFuel fuel 1; own 1"),
        ("", 100, "Answer(0) fuel 0; own 0 gave 0"),
        (
            "n = 0;",
            100,
            "Answer(0) fuel 6 0w0.0=0; writes 0.0=0; own 6 gave 0",
        ),
        (
            "n = 7;",
            100,
            "Answer(0) fuel 6 0w0.0=7; writes 0.0=7; own 6 gave 0",
        ),
        ("return 1; n = 2;", 9, "Answer(1) fuel 2; own 2 gave 1"),
        (
            "return n + n;",
            8,
            "Answer(14) fuel 8 0r0.0=7 0r0.0=7; reads 0.0=7; own 8 gave 14",
        ),
        (
            "return n + n;",
            7,
            "OutOfFuel fuel 7 0r0.0=7 0r0.0=7; reads 0.0=7; own 7",
        ),
        (
            "n = 5; return n + 340282366920938463463374607431768211455;",
            100,
            "Reverted(Overflow) fuel 12 0w0.0=5 0r0.0=5; own 12",
        ),
    ] {
        let text = report_of_body(&rt, rt.alloc(), body, fuel)?;
        assert_eq!(rt; text.as_str(), want, "{body}");
    }
    Ok(())
}

/// A `return` of `p` within so many sums.
fn nested(alloc: Global, before: &str, times: usize, after: &str) -> Result<String, AllocError> {
    let mut text = String::from_str(alloc, "return ")?;
    for _ in 0..times {
        text.push_str(before)?;
    }
    text.push('p')?;
    for _ in 0..times {
        text.push_str(after)?;
    }
    text.push(';')?;
    Ok(text)
}

#[test]
fn a_sum_nests_as_deep_as_brackets_may(rt: HostRuntime) -> Result<(), Fail> {
    for (before, times, after, want) in [
        ("(", 40, " + 1)", "Answer(41) fuel 82; own 82 gave 41"),
        ("1 + (", 40, ")", "Answer(41) fuel 82; own 82 gave 41"),
        ("", 40, " + 1", "Answer(41) fuel 82; own 82 gave 41"),
        ("(", 62, " + 1)", "Answer(63) fuel 126; own 126 gave 63"),
        ("1 + (", 62, ")", "Answer(63) fuel 126; own 126 gave 63"),
    ] {
        let body = nested(rt.alloc(), before, times, after)?;
        let text = report_of_body(&rt, rt.alloc(), body.as_str(), 1000)?;
        assert_eq!(rt; text.as_str(), want, "{body}");
    }
    Ok(())
}
