//! A journal in any pieces, and what is told where nothing is run.

use crate::calls::{COUNTER, Case, Fails, JOURNAL, LINE, called, counted, told};
use ecf_lang::limits::MAX_CONTRACT_BYTES;
use std::alloc::AllocError;

// The last bracket is the 65th.
const DEEP: &str =
    "object A { method m(): num { x = (((((((((((((((((((((((((((((((((((((((((((((((((((((((((((((((1";

#[test]
fn writes_the_journal_in_any_pieces(rt: HostRuntime) -> Result<(), AllocError> {
    let due = told(rt.alloc(), 0, JOURNAL.as_bytes(), &[])?;
    for step in [1, 2, 3, 7, 1000] {
        let text = called(&rt, counted(step, Fails::Never))?;
        assert_eq!(rt; text.as_str(), due.as_str());
    }
    Ok(())
}

/// What a call with this word behind `run` and this stream answers and leaves.
fn ran(
    rt: &HostRuntime,
    file: &'static str,
    stream: &'static str,
    fails: Fails,
) -> Result<String, AllocError> {
    let case = Case {
        file,
        stream,
        ..counted(9, fails)
    };
    called(rt, case)
}

#[test]
fn tells_why_nothing_was_run(rt: HostRuntime) -> Result<(), AllocError> {
    for (file, stream, fails, want) in [
        (
            "d.ecf",
            LINE,
            Fails::Never,
            "4 out  note contract: missing\n",
        ),
        ("-c", LINE, Fails::Never, "1 out  note words refused\n"),
        (
            "c.ecf",
            LINE,
            Fails::Fetch(1),
            "4 out  note contract: read fault\n",
        ),
    ] {
        let text = ran(&rt, file, stream, fails)?;
        assert_eq!(rt; text.as_str(), want);
    }
    Ok(())
}

/// What a call over this contract with so many blanks answers and leaves.
fn ran_over(rt: &HostRuntime, contract: &'static str, blanks: usize) -> Result<String, AllocError> {
    let case = Case {
        contract,
        blanks,
        ..counted(9, Fails::Never)
    };
    called(rt, case)
}

#[test]
fn tells_why_a_contract_is_refused(rt: HostRuntime) -> Result<(), AllocError> {
    for (contract, want) in [
        (
            "object A { num x = $1; }",
            "2 out  note contract byte 19: bad byte\n",
        ),
        (
            "object A { num x = 340282366920938463463374607431768211456; }",
            "2 out  note contract byte 19: wide number\n",
        ),
        ("", "2 out  note contract token 0: syntax\n"),
        (
            "object A { method m(): num { else { } } }",
            "2 out  note contract token 10: syntax\n",
        ),
        (DEEP, "2 out  note contract token 74: too deep\n"),
    ] {
        let text = ran_over(&rt, contract, 0)?;
        assert_eq!(rt; text.as_str(), want);
    }
    Ok(())
}

#[test]
fn tells_the_first_fault_of_names_and_types(rt: HostRuntime) -> Result<(), AllocError> {
    for (contract, want) in [
        ("object A { } object A { }", "5: type TwoObjects"),
        ("object A { num x; flag x; }", "7: type TwoFields"),
        (
            "object A { method m(): num { } method m(): num { } }",
            "12: type TwoMethods",
        ),
        (
            "object A { method m(a: num): num { let a: num = 1; } }",
            "14: type TwoLocals",
        ),
        (
            "object A { method m(): num { } } object B { method m(n: num): num { } }",
            "16: type TwoSignatures",
        ),
        (
            "object A { map m: num -> num = { 1: 2, 01: 3 }; }",
            "15: type TwoKeys",
        ),
        (
            "object A { method m(a: num, b: num, c: num, d: num, e: num, f: num, g: num, h: num, i: num): num { } }",
            "38: type TooManyLocals",
        ),
        (
            "object A { method m(): num { return x; } }",
            "11: type UnknownName",
        ),
        (
            "object A { map m: num -> num; method g(): num { return m; } }",
            "18: type Misused",
        ),
        (
            "object A { method m(): num { return self.k(); } }",
            "13: type UnknownMethod",
        ),
        (
            "object A { method m(): num { return self.m(1); } }",
            "13: type WrongArity",
        ),
        ("object A { num x = true; }", "6: type WrongType"),
        // The first of several, and none before the tokens spell a tree.
        ("object A { num x = true; num x = y; }", "6: type WrongType"),
        ("object A { num x = true; } object", "10: syntax"),
    ] {
        let due = format!(in rt.alloc(); "2 out  note contract token {want}\n")?;
        let text = ran_over(&rt, contract, 0)?;
        assert_eq!(rt; text.as_str(), due.as_str());
    }
    Ok(())
}

#[test]
fn refuses_a_contract_over_its_limit(rt: HostRuntime) -> Result<(), AllocError> {
    let spare = MAX_CONTRACT_BYTES.saturating_sub(COUNTER.len());
    let due = told(rt.alloc(), 0, JOURNAL.as_bytes(), &[])?;
    let text = ran_over(&rt, COUNTER, spare)?;
    assert_eq!(rt; text.as_str(), due.as_str());
    let text = ran_over(&rt, COUNTER, spare.saturating_add(1))?;
    assert_eq!(rt; text.as_str(), "2 out  note contract: too long\n");
    Ok(())
}
