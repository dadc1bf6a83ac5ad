//! `show` over objects in memory: its text, its refusals, and each call that fails.

use crate::calls::{Case, Fails, called, counted, told};
use std::alloc::AllocError;

const SHOWN: &str =
    "object Counter {\n  num n;\n  method bump(): num {\n    n = n + 1;\n    return n;\n  }\n}\n";

const MISSING: &str = "contract: missing\n";

/// What `show` answers and leaves of the counter.
fn shown(rt: &HostRuntime, step: usize, fails: Fails) -> Result<String, AllocError> {
    let case = Case {
        command: "show",
        ..counted(step, fails)
    };
    called(rt, case)
}

/// The same of another contract.
fn shown_of(rt: &HostRuntime, contract: &'static str) -> Result<String, AllocError> {
    let case = Case {
        command: "show",
        contract,
        ..counted(8, Fails::Never)
    };
    called(rt, case)
}

/// The same where the contract is missing.
fn shown_without(rt: &HostRuntime, fails: Fails) -> Result<String, AllocError> {
    let case = Case {
        command: "show",
        file: "d.ecf",
        ..counted(1, fails)
    };
    called(rt, case)
}

fn front(text: &str, len: usize) -> &[u8] {
    text.as_bytes().get(..len).unwrap_or(&[])
}

#[test]
fn a_contract_is_shown_or_refused(rt: HostRuntime) -> Result<(), AllocError> {
    let rows = [
        ("object A{}", "0 out object A { }\n note "),
        (
            "object A { num x = true; }",
            "0 out object A {\n  num x = true;\n}\n note ",
        ),
        ("object # {", "2 out  note contract byte 7: bad byte\n"),
        (
            "object A { num x }",
            "2 out  note contract token 5: syntax\n",
        ),
        ("", "2 out  note contract token 0: syntax\n"),
    ];
    for (contract, due) in rows {
        let text = shown_of(&rt, contract)?;
        assert_eq!(rt; text.as_str(), due);
    }
    Ok(())
}

// The stream isn't read, and there is one fetch.
#[test]
fn show_fetches_once_and_reads_nothing(rt: HostRuntime) -> Result<(), AllocError> {
    let due = told(rt.alloc(), 0, SHOWN.as_bytes(), &[])?;
    for fails in [Fails::Never, Fails::Read(1), Fails::Fetch(2)] {
        let text = shown(&rt, 8, fails)?;
        assert_eq!(rt; text.as_str(), due.as_str());
    }
    let text = shown(&rt, 8, Fails::Fetch(1))?;
    assert_eq!(rt; text.as_str(), "4 out  note contract: read fault\n");
    Ok(())
}

#[test]
fn show_stops_at_each_write_that_fails(rt: HostRuntime) -> Result<(), AllocError> {
    for len in 0..SHOWN.len() {
        let text = shown(&rt, 1, Fails::Write(len as u64 + 1))?;
        let due = told(rt.alloc(), 5, front(SHOWN, len), &[])?;
        assert_eq!(rt; text.as_str(), due.as_str());
    }
    for len in 0..MISSING.len() {
        let text = shown_without(&rt, Fails::Note(len as u64 + 1))?;
        let due = told(rt.alloc(), 5, &[], front(MISSING, len))?;
        assert_eq!(rt; text.as_str(), due.as_str());
    }
    Ok(())
}
