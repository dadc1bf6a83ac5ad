//! Journals of streams: receipts of each kind, the stores that they leave, and stops.

use crate::calls::{COUNTER, Case, Fails, called, counted};
use std::alloc::AllocError;

/// Pays before it clears what is owed, and is called back.
const BANK: &str = "object Bank { map owed: addr -> num = { Thief: 5 }; num cash = 20;
method withdraw(who: addr): num { let due: num = owed[who]; cash = cash - due; call who.receive(due); owed[who] = 0; return due; } }
object Thief { num got; num tries;
method receive(n: num): num { got = got + n; if tries < 1 { tries = tries + 1; call Bank.withdraw(here); } return 0; } }";

/// The invocations 0, 2 and 4 of A are in a circle.
const THREE: &str =
    "object A { num x; num y; num z; method go(): num { x = 1; call B.first(); call B.second(); return z; }
method one(): num { y = x; return 0; } method two(): num { z = y; return 0; } }
object B { method first(): num { call A.one(); return 0; } method second(): num { call A.two(); return 0; } }";

/// A callback writes the value that stands there.
const EQUAL: &str =
    "object A { num x; method go(): num { x = 1; call B.back(); x = 1; return 0; } method set(): num { x = 1; return 0; } }
object B { method back(): num { call A.set(); return 0; } }";

/// A run that would be vetoed, but that reverts.
const CYCLIC: &str =
    "object A { num x; method go(): num { x = 1; call B.back(); x = 2; revert 9; } method set(): num { x = x + 1; return 0; } }
object B { method back(): num { call A.set(); return 0; } }";

/// A try undoes a callback.
const TRIES: &str =
    "object A { num x; method go(): num { x = 1; let ok: flag = try B.back(); x = 2; return x; } method set(): num { x = x + 1; return 0; } }
object B { method back(): num { call A.set(); revert 1; } }";

/// What a call over this contract and this stream answers and leaves.
fn ran(
    rt: &HostRuntime,
    contract: &'static str,
    stream: &'static str,
) -> Result<String, AllocError> {
    let case = Case {
        contract,
        stream,
        ..counted(7, Fails::Never)
    };
    called(rt, case)
}

#[test]
fn tells_what_became_of_each_transaction(rt: HostRuntime) -> Result<(), AllocError> {
    for (contract, stream, want) in [
        (COUNTER, "", "0 out journal 2\nend\n note "),
        (
            COUNTER,
            "1 Counter bump 100\n2 Counter bump 5\n\n# skipped\n1 Counter bump 14\r\n2 Counter bump 1000000",
            "0 out journal 2\n1 1.1 Counter bump 100 -> committed 1 fuel 14\n2 2.1 Counter bump 5 -> outoffuel fuel 5\n3 1.2 Counter bump 14 -> committed 2 fuel 14\n4 2.2 Counter bump 1000000 -> committed 3 fuel 14\nend\nCounter.n = 3\n note ",
        ),
        (
            COUNTER,
            "1 Counter bump 100 ; Counter bump\n",
            "0 out journal 2\n1 1.1 Counter bump 100 ; Counter bump -> committed 2 fuel 28 order Counter 0 1\nend\nCounter.n = 2\n note ",
        ),
        (
            BANK,
            "1 Bank withdraw 1000 Thief\n2 Bank withdraw 1000 Bank\n",
            "0 out journal 2\n1 1.1 Bank withdraw 1000 Thief -> vetoed Bank at 8 cycle 0 2 fuel 136\n2 2.1 Bank withdraw 1000 Bank -> reverted nomethod fuel 29\nend\nBank.owed[1] = 5\nBank.cash = 20\n note ",
        ),
        (
            THREE,
            "1 A go 200\n",
            "0 out journal 2\n1 1.1 A go 200 -> vetoed A at 6 cycle 0 2 4 fuel 86\nend\n note ",
        ),
        (
            EQUAL,
            "1 A go 200\n1 A set 200\n",
            "0 out journal 2\n1 1.1 A go 200 -> vetoed A at 3 cycle 0 2 fuel 50\n2 1.2 A set 200 -> committed 0 fuel 8\nend\nA.x = 1\n note ",
        ),
        (
            CYCLIC,
            "1 A go 200\n",
            "0 out journal 2\n1 1.1 A go 200 -> reverted user 9 fuel 54\nend\n note ",
        ),
        (
            TRIES,
            "1 A go 100\n",
            "0 out journal 2\n1 1.1 A go 100 -> committed 2 fuel 56\nend\nA.x = 2\n note ",
        ),
    ] {
        let text = ran(&rt, contract, stream)?;
        assert_eq!(rt; text.as_str(), want);
    }
    Ok(())
}

#[test]
fn stops_where_the_stream_does(rt: HostRuntime) -> Result<(), AllocError> {
    for (stream, want) in [
        (
            "1 Counter jump 100\n1 Counter bump 100\n",
            "3 out journal 2\nstop 1 method\nend\n note ",
        ),
        (
            "1 Counter bump 100\n\n1 Counter jump 100\n1 Counter bump 100\n",
            "3 out journal 2\n1 1.1 Counter bump 100 -> committed 1 fuel 14\nstop 3 method\nend\nCounter.n = 1\n note ",
        ),
        (
            "1 Counter bump 100 ;",
            "3 out journal 2\nstop 1 form\nend\n note ",
        ),
        (
            "1 Counter bump 100\n@off 0\n",
            "3 out journal 2\n1 1.1 Counter bump 100 -> committed 1 fuel 14\nstop 2 form\nend\nCounter.n = 1\n note ",
        ),
        (
            "1 Counter bump 0\n",
            "3 out journal 2\nstop 1 fuel\nend\n note ",
        ),
    ] {
        let text = ran(&rt, COUNTER, stream)?;
        assert_eq!(rt; text.as_str(), want);
    }
    Ok(())
}
