//! Runs of calls: what reverts and by which cause, what a try catches and undoes, and transactions of several calls.

use crate::reports::{effects_of, report_in, run_of};
use crate::texts::typed;
use std::alloc::Global;
use std::process::Abort;
use std::test::Fail;

const AMPLE: u32 = 1000;

/// What calls of a method do that calls one with this body: bare, below a try, and below one that an outer method tries.
fn effects_in(rt: &impl Abort, alloc: Global, body: &str, method: u16) -> Result<String, Fail> {
    let text = format!(in alloc;
        "object A {{ num n; \
         method bare(p: num): num {{ n = 1; return call B.fail(p); }} \
         method caught(p: num): num {{ n = 1; let ok: flag = try B.fail(p); if ok {{ n = 2; }} return n; }} \
         method outer(p: num): num {{ let ok: flag = try here.bare(p); if ok {{ n = 2; }} return n; }} }} \
         object B {{ num x; method fail(p: num): num {{ x = 5; {body} }} method back(q: num): num {{ revert q; }} }}"
    )?;
    let contract = typed(alloc, text.as_str())?;
    let run = run_of(rt, alloc, &contract, AMPLE, &[(method, 1)])?;
    Ok(effects_of(alloc, &run)?)
}

#[test]
fn what_reverts_is_caught(rt: HostRuntime) -> Result<(), Fail> {
    let alloc = rt.alloc();
    for (body, cause) in [
        ("revert 3;", "User(3)"),
        ("return 0 - 1;", "Overflow"),
        (
            "return 340282366920938463463374607431768211455 + 1;",
            "Overflow",
        ),
        (
            "return 18446744073709551616 * 18446744073709551616;",
            "Overflow",
        ),
        ("return 1 / 0;", "DivZero"),
        ("return 1 % 0;", "DivZero"),
        ("return call A.back(2);", "NoMethod"),
        ("call B.back(4); return 2;", "User(4)"),
        ("return self.back(5);", "User(5)"),
        (
            "while p < 9 { p = p + 1; if p == 4 { revert p; } }",
            "User(4)",
        ),
    ] {
        let bare = format!(in alloc; "Reverted({cause}) 0w0.0=1 1w1.0=5")?;
        for (method, want) in [
            (0, bare.as_str()),
            (1, "Answer(1) 0w0.0=1 0r0.0=1; writes 0.0=1"),
            (2, "Answer(7) 0r0.0=7; reads 0.0=7"),
        ] {
            let text = effects_in(&rt, alloc, body, method)?;
            assert_eq!(rt; text.as_str(), want, "{body}");
        }
    }
    Ok(())
}

const SPOILED: &str =
    "object A { num x; method go(p: num): num { x = 1; let ok: flag = try B.bad(); if ok { x = 5; } return x; } } \
     object B { num y; method bad(): num { y = 7; revert 3; } }";

#[test]
fn a_try_undoes_what_it_called(rt: HostRuntime) -> Result<(), Fail> {
    for (text, fuel, want) in [
        (
            SPOILED,
            33,
            "Answer(1) fuel 33 0w0.0=1 0r0.0=1; writes 0.0=1; own 25 heard 0 gave 1; own 8 undone",
        ),
        (SPOILED, 20, "OutOfFuel fuel 20 0w0.0=1; own 19; own 1"),
        (
            SPOILED,
            26,
            "OutOfFuel fuel 26 0w0.0=1 1w1.0=7; own 19; own 7",
        ),
        // A call back is undone with the call.
        (
            "object A { num x; method go(p: num): num { x = 1; let ok: flag = try B.back(); x = 2; return x; } \
             method set(): num { x = x + 1; return 0; } } object B { method back(): num { call A.set(); revert 1; } }",
            100,
            "Answer(2) fuel 56 0w0.0=1 0w0.0=2 0r0.0=2; writes 0.0=2; own 29 heard 0 gave 2; own 15 heard 0 undone; own 12 gave 0 undone",
        ),
        // No method: nothing is opened.
        (
            "object A { method go(p: num): flag { let ok: flag = try B.go(p); return ok; } } object B { }",
            100,
            "Answer(0) fuel 16; own 16 heard 0 gave 0",
        ),
        // A try of what answers keeps it, and drops the answer.
        (
            "object A { method go(p: num): flag { let ok: flag = try B.put(5); return ok; } } \
             object B { num y; method put(q: num): num { y = q; return q; } }",
            100,
            "Answer(1) fuel 24 1w1.0=5; writes 1.0=5; own 16 heard 1 gave 1; own 8 gave 5",
        ),
        // What was read stays read.
        (
            "object A { num x; map m: num -> num; method go(p: num): num { let ok: flag = try here.look(); return m[1]; } \
             method look(): num { let v: num = x + m[2]; m[1] = v; revert v; } }",
            100,
            "Answer(0) fuel 36 0r0.1[1]=0; reads 0.0=7 0.1[2]=0 0.1[1]=0; own 18 heard 0 gave 0; own 18 undone",
        ),
        // Undone numbers are used up.
        (
            "object A { num x; method go(p: num): num { let ok: flag = try here.bad(); return call here.put(p); } \
             method bad(): num { x = 3; revert 1; } method put(q: num): num { x = q; return x; } }",
            100,
            "Answer(1) fuel 45 2w0.0=1 2r0.0=1; writes 0.0=1; own 27 heard 0 heard 1 gave 1; own 8 undone; own 10 gave 1",
        ),
        // A try within one that is undone, and one that is undone within one that is kept.
        (
            "object A { num x; method go(p: num): num { let ok: flag = try here.outer(); return x; } \
             method outer(): num { x = 2; let ok: flag = try here.inner(); revert 4; } method inner(): num { x = 3; return x; } }",
            100,
            "Answer(7) fuel 48 0r0.0=7; reads 0.0=7; own 17 heard 0 gave 7; own 21 heard 1 undone; own 10 gave 3 undone",
        ),
        (
            "object A { num x; method go(p: num): num { let ok: flag = try here.outer(); return x; } \
             method outer(): num { x = 2; let ok: flag = try here.inner(); return x; } method inner(): num { x = 3; revert x; } }",
            100,
            "Answer(2) fuel 50 1w0.0=2 1r0.0=2 0r0.0=2; writes 0.0=2; own 17 heard 1 gave 2; own 23 heard 0 gave 2; own 10 undone",
        ),
        // The arguments come before the try, and those of a call that is never made are forgotten.
        (
            "object A { method go(p: num): num { let ok: flag = try here.go(p / 0); return 5; } }",
            100,
            "Reverted(DivZero) fuel 5; own 5",
        ),
        (
            "object A { method go(p: num): num { let ok: flag = try here.mid(); return self.add(p, self.add(1, 1)); } \
             method mid(): num { return self.add(5, call here.bad()); } method bad(): num { revert 1; } \
             method add(a: num, b: num): num { return a + b; } }",
            100,
            "Answer(3) fuel 49; own 33 heard 0 gave 3; own 14 undone; own 2 undone",
        ),
    ] {
        let text = report_in(&rt, rt.alloc(), text, fuel, &[(0, 1)])?;
        assert_eq!(rt; text.as_str(), want);
    }
    Ok(())
}

#[test]
fn calls_of_a_transaction_run_in_turn(rt: HostRuntime) -> Result<(), Fail> {
    let text =
        "object A { num n; method add(p: num): num { n = n + p; return n; } method stop(p: num): num { revert p; } }";
    let eight = [
        (0, 1),
        (0, 2),
        (0, 3),
        (0, 4),
        (0, 5),
        (0, 6),
        (0, 7),
        (0, 8),
    ];
    for (fuel, calls, want) in [
        (
            14,
            [(0, 1)].as_slice(),
            "Answer(8) fuel 14 0r0.0=7 0w0.0=8 0r0.0=8; reads 0.0=7; writes 0.0=8; own 14 gave 8",
        ),
        (
            28,
            [(0, 1), (0, 2)].as_slice(),
            "Answer(10) fuel 28 0r0.0=7 0w0.0=8 0r0.0=8 1r0.0=8 1w0.0=10 1r0.0=10; reads 0.0=7; writes 0.0=10; \
             own 14 gave 8; own 14 gave 10",
        ),
        (
            27,
            [(0, 1), (0, 2)].as_slice(),
            "OutOfFuel fuel 27 0r0.0=7 0w0.0=8 0r0.0=8 1r0.0=8 1w0.0=10; reads 0.0=7; own 14 gave 8; own 11",
        ),
        (
            99,
            [(0, 1), (1, 5), (0, 1)].as_slice(),
            "Reverted(User(5)) fuel 16 0r0.0=7 0w0.0=8 0r0.0=8; reads 0.0=7; own 14 gave 8; own 2",
        ),
        (
            99,
            [(0, 1), (9, 5)].as_slice(),
            "Reverted(NoMethod) fuel 14 0r0.0=7 0w0.0=8 0r0.0=8; reads 0.0=7; own 14 gave 8",
        ),
        (
            112,
            eight.as_slice(),
            "Answer(43) fuel 112 0r0.0=7 0w0.0=8 0r0.0=8 1r0.0=8 1w0.0=10 1r0.0=10 2r0.0=10 2w0.0=13 2r0.0=13 \
             3r0.0=13 3w0.0=17 3r0.0=17 4r0.0=17 4w0.0=22 4r0.0=22 5r0.0=22 5w0.0=28 5r0.0=28 \
             6r0.0=28 6w0.0=35 6r0.0=35 7r0.0=35 7w0.0=43 7r0.0=43; reads 0.0=7; writes 0.0=43; \
             own 14 gave 8; own 14 gave 10; own 14 gave 13; own 14 gave 17; own 14 gave 22; own 14 gave 28; \
             own 14 gave 35; own 14 gave 43",
        ),
    ] {
        let text = report_in(&rt, rt.alloc(), text, fuel, calls)?;
        assert_eq!(rt; text.as_str(), want);
    }
    Ok(())
}
