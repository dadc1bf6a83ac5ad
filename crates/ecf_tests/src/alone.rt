//! Invocations alone, with recorded answers in place of calls to other objects.

use crate::reports::{lone_of, lone_report_of};
use crate::texts::typed;
use std::alloc::Global;
use std::test::Fail;

/// The report of a call of the method with this body, over a field that holds 7.
fn report_in(alloc: Global, body: &str, fuel: u32, answers: &[u128]) -> Result<String, Fail> {
    let text = format!(in alloc;
        "object A {{ num n; method go(p: num): num {{ {body} }} \
         method deep(q: num): num {{ if q == 0 {{ return 5; }} return self.deep(q - 1); }} }} \
         object B {{ method ask(q: num): num {{ }} }}"
    )?;
    let contract = typed(alloc, text.as_str())?;
    let lone = lone_of(alloc, &contract, fuel, answers)?;
    Ok(lone_report_of(alloc, &lone)?)
}

const ASKS: &str = "n = call B.ask(p); let ok: flag = try B.ask(n); if ok { return n; } return p;";

#[test]
fn recorded_answers_stand_for_calls(rt: HostRuntime) -> Result<(), Fail> {
    for (body, fuel, answers, want) in [
        ("return 5;", 2, [].as_slice(), "Answer(5)"),
        ("return 5;", 1, [].as_slice(), "OutOfFuel"),
        ("", 0, [].as_slice(), "Answer(0)"),
        ("return 5;", 2, [8, 9].as_slice(), "Answer(5)"),
        ("return n + p;", 6, [].as_slice(), "Answer(8) 9r0.0=7"),
        (
            "n = 5; revert n;",
            10,
            [].as_slice(),
            "Reverted(User(5)) 9w0.0=5 9r0.0=5",
        ),
        (
            ASKS,
            40,
            [4, 1].as_slice(),
            "Answer(4) 9w0.0=4 9r0.0=4 9r0.0=4; writes 0.0=4",
        ),
        (
            ASKS,
            40,
            [4, 0].as_slice(),
            "Answer(1) 9w0.0=4 9r0.0=4; writes 0.0=4",
        ),
        (
            ASKS,
            40,
            [4, 1, 3].as_slice(),
            "Answer(4) 9w0.0=4 9r0.0=4 9r0.0=4; writes 0.0=4",
        ),
        (ASKS, 40, [4].as_slice(), "OutOfFuel 9w0.0=4 9r0.0=4"),
        (ASKS, 40, [].as_slice(), "OutOfFuel"),
        (ASKS, 39, [4, 1].as_slice(), "OutOfFuel 9w0.0=4 9r0.0=4"),
        // A call's own tests aren't made.
        ("return call A.ask(p);", 14, [4].as_slice(), "Answer(4)"),
        ("return call A.ask(p);", 13, [4].as_slice(), "OutOfFuel"),
        ("return self.deep(62);", 9999, [].as_slice(), "Answer(5)"),
        (
            "return self.deep(63);",
            9999,
            [].as_slice(),
            "Reverted(Depth)",
        ),
    ] {
        let text = report_in(rt.alloc(), body, fuel, answers)?;
        assert_eq!(rt; text.as_str(), want, "{body}");
    }
    Ok(())
}
