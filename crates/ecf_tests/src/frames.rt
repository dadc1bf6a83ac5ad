//! Runs up to the limits of open frames and of invocations, and past them.

use crate::reports::{counts_of, run_of};
use crate::texts::typed;
use ecf_lang::limits::MAX_FUEL;
use std::alloc::Global;
use std::process::Abort;
use std::test::Fail;

/// The counts of a call of the first method with an argument, and with the fuel that it took less one.
fn counts_in(rt: &impl Abort, alloc: Global, text: &str, arg: u128) -> Result<String, Fail> {
    let contract = typed(alloc, text)?;
    let run = run_of(rt, alloc, &contract, MAX_FUEL, &[(0, arg)])?;
    let short = run_of(
        rt,
        alloc,
        &contract,
        run.fuel.saturating_sub(1),
        &[(0, arg)],
    )?;
    let counts = counts_of(alloc, &run)?;
    Ok(format!(in alloc; "{counts}; {:?}", short.outcome)?)
}

const INTERNAL: &str =
    "object A { method go(p: num): num { if p == 0 { return 5; } return self.go(p - 1); } }";

const EXTERNAL: &str =
    "object A { method go(p: num): num { if p == 0 { return 5; } return call here.go(p - 1); } }";

const MIXED: &str =
    "object A { method go(p: num): num { if p == 0 { return 5; } if p % 2 == 0 { return self.go(p - 1); } \
     return call here.go(p - 1); } }";

const TRIED: &str =
    "object A { method go(p: num): num { if p == 0 { return 5; } let ok: flag = try here.go(p - 1); \
     if ok { return 6; } return p; } }";

const LOOP: &str =
    "object A { method go(p: num): num { while p > 0 { p = p - 1; call B.leaf(); } return 5; } } \
     object B { method leaf(): num { } }";

const TRY_LOOP: &str =
    "object A { method go(p: num): num { let n: num = 0; while p > 0 { p = p - 1; \
     let ok: flag = try B.bad(); if p == 0 { n = call B.two(); } } return n; } } \
     object B { method bad(): num { revert 1; } method two(): num { return 2; } }";

const LAST_TRY: &str =
    "object A { method go(p: num): flag { while p > 0 { p = p - 1; let no: flag = try B.bad(); } \
     let ok: flag = try B.leaf(); return ok; } } \
     object B { method bad(): num { revert 1; } method leaf(): num { } }";

#[test]
fn frames_and_invocations_have_their_limits(rt: HostRuntime) -> Result<(), Fail> {
    for (text, arg, want) in [
        (INTERNAL, 63, "Answer(5) opened 1 undone 0; OutOfFuel"),
        (INTERNAL, 64, "Reverted(Depth) opened 1 undone 0; OutOfFuel"),
        (EXTERNAL, 63, "Answer(5) opened 64 undone 0; OutOfFuel"),
        (
            EXTERNAL,
            64,
            "Reverted(Depth) opened 64 undone 0; OutOfFuel",
        ),
        (MIXED, 63, "Answer(5) opened 33 undone 0; OutOfFuel"),
        (MIXED, 64, "Reverted(Depth) opened 32 undone 0; OutOfFuel"),
        (TRIED, 63, "Answer(6) opened 64 undone 0; OutOfFuel"),
        (TRIED, 64, "Answer(6) opened 64 undone 0; OutOfFuel"),
        (LOOP, 1023, "Answer(5) opened 1024 undone 0; OutOfFuel"),
        (
            LOOP,
            1024,
            "Reverted(Calls) opened 1024 undone 0; OutOfFuel",
        ),
        (
            TRY_LOOP,
            1022,
            "Answer(2) opened 1024 undone 1022; OutOfFuel",
        ),
        (
            TRY_LOOP,
            1023,
            "Reverted(Calls) opened 1024 undone 1023; OutOfFuel",
        ),
        (
            LAST_TRY,
            1022,
            "Answer(1) opened 1024 undone 1022; OutOfFuel",
        ),
        (
            LAST_TRY,
            1023,
            "Answer(0) opened 1024 undone 1023; OutOfFuel",
        ),
        (
            LAST_TRY,
            1024,
            "Answer(0) opened 1024 undone 1023; OutOfFuel",
        ),
    ] {
        let text = counts_in(&rt, rt.alloc(), text, arg)?;
        assert_eq!(rt; text.as_str(), want);
    }
    Ok(())
}

/// The counts where so many invocations are opened and so many frames opened above them, and then a method is called that
/// the object hasn't.
fn counts_at(rt: &impl Abort, alloc: Global, leaves: u128, frames: u128) -> Result<String, Fail> {
    let text = format!(in alloc;
        "object A {{ method go(p: num): num {{ while p > 0 {{ p = p - 1; call B.leaf(); }} return self.down({frames}); }} \
         method down(q: num): num {{ if q == 0 {{ return call B.down(q); }} return self.down(q - 1); }} }} \
         object B {{ method leaf(): num {{ }} }}"
    )?;
    counts_in(rt, alloc, text.as_str(), leaves)
}

#[test]
fn a_call_is_tested_in_order(rt: HostRuntime) -> Result<(), Fail> {
    for (leaves, frames, want) in [
        (
            1022,
            61,
            "Reverted(NoMethod) opened 1023 undone 0; OutOfFuel",
        ),
        (1022, 62, "Reverted(Depth) opened 1023 undone 0; OutOfFuel"),
        (1023, 61, "Reverted(Calls) opened 1024 undone 0; OutOfFuel"),
        (1023, 62, "Reverted(Depth) opened 1024 undone 0; OutOfFuel"),
    ] {
        let text = counts_at(&rt, rt.alloc(), leaves, frames)?;
        assert_eq!(rt; text.as_str(), want);
    }
    Ok(())
}
