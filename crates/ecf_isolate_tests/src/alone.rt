//! Committed transactions, with the invocations of each object that has several run alone.

use crate::isolated::told;
use std::test::Fail;

/// Clears a balance before it pays. Who is paid calls back once.
const CLEARS_FIRST: &str =
    "object Bank { map owed: addr -> num = { Customer: 5, Thief: 5 }; num cash = 20; \
     method withdraw(who: addr): num { let due: num = owed[who]; owed[who] = 0; cash = cash - due; call who.receive(due); return due; } } \
     object Customer { num got; method receive(n: num): num { got = got + n; return 0; } } \
     object Thief { num got; num tries; method receive(n: num): num { got = got + n; \
     if tries < 1 { tries = tries + 1; call Bank.withdraw(here); } return 0; } }";

/// Pays before it clears.
const PAYS_FIRST: &str = "object Bank { map owed: addr -> num = { Thief: 5 }; num cash = 20; \
     method withdraw(who: addr): num { let due: num = owed[who]; cash = cash - due; call who.receive(due); owed[who] = 0; return due; } } \
     object Thief { num got; num tries; method receive(n: num): num { got = got + n; \
     if tries < 1 { tries = tries + 1; call Bank.withdraw(here); } return 0; } }";

/// Each of three objects is called back by the next. Of A and C the call back stands first in the order.
const BOTH_WAYS: &str =
    "object A { num a = 10; method go(p: num): num { let x: num = call B.mid(p); a = a + x; return a; } \
     method put(q: num): num { a = a + q; return a; } } \
     object B { num b; method mid(p: num): num { b = b + p; return call C.low(p); } \
     method see(q: num): num { return call C.note(b) + q; } } \
     object C { num c; method low(p: num): num { let u: num = call A.put(p); let v: num = call B.see(u); c = c + v; return c; } \
     method note(q: num): num { c = q; return q; } }";

/// Calls that a `try` undoes stand between others.
const UNDONE: &str =
    "object A { num x = 5; method go(p: num): num { x = x + p; let ok: flag = try B.bad(p); call B.good(p); \
     let well: flag = try B.good(p); if ok { return 0; } if well { return 7; } return 8; } \
     method set(q: num): num { x = x + q; return x; } } \
     object B { num b; method bad(q: num): num { b = 9; call A.set(q); revert 1; } \
     method good(q: num): num { let r: num = call A.set(q); b = b + r; return b; } }";

const COUNTER: &str =
    "object A { num n = 7; method add(p: num): num { n = n + p; return n; } method clear(p: num): num { n = 0; return p; } }";

/// A loop over answers, whose order tells in the sum.
const LOOP: &str =
    "object A { num sum; num seen; method go(p: num): num { let i: num = 0; let s: num = 0; \
     while i < p { i = i + 1; s = s * 2 + call B.next(i); } sum = s + seen; return sum; } \
     method mark(q: num): num { seen = seen + q; return seen; } } \
     object B { num b; method next(q: num): num { b = b + q; return call A.mark(b); } }";

#[test]
fn invocations_do_alone_what_they_did(rt: HostRuntime) -> Result<(), Fail> {
    for (contract, size, calls, want) in [
        (
            CLEARS_FIRST,
            1,
            [(0, 2), (0, 1)].as_slice(),
            "5; object 0: 0 gives 5 in 4, 2 gives 0 in 4, left 0[1] = 5 1[0] = 15; \
             object 2: 1 gives 0 in 5, 3 gives 0 in 3, left 0[0] = 5 1[0] = 1. 5. ",
        ),
        (PAYS_FIRST, 1, [(0, 1)].as_slice(), "5 vetoed. "),
        (
            BOTH_WAYS,
            1,
            [(0, 3)].as_slice(),
            "32; object 0: 3 gives 13 in 3, 0 gives 32 in 3, left 0[0] = 32; \
             object 1: 1 gives 19 in 2, 4 gives 16 in 1, left 0[0] = 3; \
             object 2: 5 gives 3 in 1, 2 gives 19 in 3, left 0[0] = 19. ",
        ),
        (
            UNDONE,
            1,
            [(0, 2)].as_slice(),
            "7; object 0: 0 gives 7 in 2, 4 gives 9 in 3, 6 gives 11 in 3, left 0[0] = 11; \
             object 1: 3 gives 9 in 3, 5 gives 20 in 3, left 0[0] = 20. ",
        ),
        (
            COUNTER,
            3,
            [(0, 1), (0, 2), (0, 3), (0, 1), (1, 3)].as_slice(),
            "13; object 0: 0 gives 8 in 3, 1 gives 10 in 3, 2 gives 13 in 3, left 0[0] = 13. \
             3; object 0: 0 gives 14 in 3, 1 gives 3 in 1, left. ",
        ),
        (
            LOOP,
            1,
            [(0, 3)].as_slice(),
            "32; object 0: 2 gives 1 in 3, 4 gives 4 in 3, 6 gives 10 in 3, 0 gives 32 in 3, left 0[0] = 32 1[0] = 10; \
             object 1: 1 gives 1 in 3, 3 gives 4 in 3, 5 gives 10 in 3, left 0[0] = 6. ",
        ),
    ] {
        let text = told(rt.alloc(), contract, size, calls)?;
        assert_eq!(rt; text.as_str(), want);
    }
    Ok(())
}
