//! Lines of streams against the transactions that they say, or against their first fault.

use crate::stream_contract::{contract, zeros_before};
use ecf_lang::tx::Tx;
use ecf_stream::{Lookup, StreamFault, read_tx, read_tx_by};
use std::alloc::{AllocError, Global};
use std::test::Fail;

/// What was said: submitter, fuel, and of each call the object, the method and the arguments.
fn shown(alloc: Global, said: &Result<Option<Tx>, StreamFault>) -> Result<String, AllocError> {
    let mut text = String::new(alloc);
    match said {
        Ok(Some(tx)) => write_tx(&mut text, tx)?,
        Ok(None) => text.push_str("nothing")?,
        Err(fault) => write!(text, "{fault:?}")?,
    }
    Ok(text)
}

fn write_tx(text: &mut String, tx: &Tx) -> Result<(), AllocError> {
    write!(text, "{} {}", tx.submitter, tx.fuel)?;
    for call in tx.calls.as_slice() {
        write!(text, " {}.{}", call.object, call.method)?;
        for arg in call.args.as_slice() {
            write!(text, ",{arg}")?;
        }
    }
    Ok(())
}

fn said_of(alloc: Global, line: &str) -> Result<String, AllocError> {
    let typed = contract(alloc)?;
    shown(alloc, &read_tx(alloc, &typed, line.as_bytes()))
}

/// What is said behind so many zeros.
fn said_behind(alloc: Global, zeros: usize, line: &str) -> Result<String, AllocError> {
    let typed = contract(alloc)?;
    let line = zeros_before(alloc, zeros, line)?;
    shown(alloc, &read_tx(alloc, &typed, line.as_slice()))
}

/// What is said with names made ready before.
fn looked_up(alloc: Global, line: &str) -> Result<String, AllocError> {
    let typed = contract(alloc)?;
    let lookup = Lookup::new(alloc, &typed)?;
    shown(alloc, &read_tx_by(alloc, &typed, &lookup, line.as_bytes()))
}

#[test]
fn lines_say_these_transactions(rt: HostRuntime) -> Result<(), Fail> {
    let alloc = rt.alloc();
    for (line, want) in [
        ("", "nothing"),
        ("#", "nothing"),
        ("# note", "nothing"),
        ("1 Counter bump 100", "1 100 0.0"),
        ("007 Counter bump 0100", "7 100 0.0"),
        ("4294967295 Counter bump 1000000", "4294967295 1000000 0.0"),
        ("0 Counter bump 1", "0 1 0.0"),
        ("2 Bank put 100 5 true Bank", "2 100 1.1,5,1,1"),
        ("2 Bank put 100 0005 false Counter", "2 100 1.1,5,0,0"),
        (
            "2 Bank put 100 340282366920938463463374607431768211455 true Counter",
            "2 100 1.1,340282366920938463463374607431768211455,1,0",
        ),
        (
            "7 Counter bump 100 ; Bank put 5 true Bank",
            "7 100 0.0 1.1,5,1,1",
        ),
        (
            "7 Bank put 100 1 true Bank ; Counter bump ; Bank put 5 false Bank",
            "7 100 1.1,1,1,1 0.0 1.1,5,0,1",
        ),
        (
            "7 Counter bump 9 ; Counter bump ; Counter bump ; Counter bump ; Counter bump ; Counter bump ; Counter bump ; Bank put 5 true Bank",
            "7 9 0.0 0.0 0.0 0.0 0.0 0.0 0.0 1.1,5,1,1",
        ),
    ] {
        let said = said_of(alloc, line)?;
        assert_eq!(rt; said.as_str(), want, "{line}");
        let again = looked_up(alloc, line)?;
        assert_eq!(rt; again.as_str(), want, "{line}");
    }
    Ok(())
}

#[test]
fn lines_have_these_first_faults(rt: HostRuntime) -> Result<(), Fail> {
    let alloc = rt.alloc();
    for (line, want) in [
        ("1 Counter bump", "Form"),
        ("1  Counter bump 100", "Form"),
        (" 1 Counter bump 100", "Form"),
        ("1 Counter bump 100 ", "Form"),
        ("1 Nobody bump  0", "Form"),
        ("4294967296 Counter bump 100", "Form"),
        ("+1 Counter bump 100", "Form"),
        ("one Nobody bump 100", "Form"),
        ("@off 1", "Form"),
        ("1 Counter bump 100 ;", "Form"),
        ("1 Counter bump 100 ; Counter", "Form"),
        ("1 Counter bump ; Counter bump", "Form"),
        ("; Counter bump 100", "Form"),
        (
            "1 Nobody a 0 ; A b ; A b ; A b ; A b ; A b ; A b ; A b ; A b",
            "Form",
        ),
        ("1 Nobody bump 100", "NoObject"),
        ("1 counter bump 100", "NoObject"),
        ("1 Nobody jump 0", "NoObject"),
        ("1 Counter jump 100", "NoMethod"),
        ("1 Counter put 0 1 true Bank", "NoMethod"),
        ("1 Counter bump 0", "BadFuel"),
        ("1 Counter bump 1000001 5", "BadFuel"),
        ("1 Counter bump 1e3", "BadFuel"),
        ("1 Counter bump 100 5", "Arity"),
        ("1 Counter bump 100 1 2 3 4 5 6 7 8 9", "Arity"),
        ("1 Bank put 100 x true", "Arity"),
        ("1 Bank put 100 1 true Bank 4 5 6 7 8 9", "Arity"),
        ("1 Bank put 100 -1 true Bank", "BadArg"),
        (
            "1 Bank put 100 340282366920938463463374607431768211456 true Bank",
            "BadArg",
        ),
        ("1 Bank put 100 1 1 Bank", "BadArg"),
        ("1 Bank put 100 1 true 1", "BadArg"),
        ("1 Counter bump 100 ; Nobody bump", "NoObject"),
        ("1 Counter bump 100 ; Counter put", "NoMethod"),
        ("1 Counter bump 0 ; Nobody bump", "BadFuel"),
        ("1 Counter bump 100 1 ; Nobody bump", "Arity"),
        ("1 Counter bump 100 ; Counter bump 100", "Arity"),
        ("1 Counter bump 100 ; Bank put 1 1 Bank", "BadArg"),
    ] {
        let said = said_of(alloc, line)?;
        assert_eq!(rt; said.as_str(), want, "{line}");
    }
    Ok(())
}

#[test]
fn a_submitter_may_begin_with_many_zeros(rt: HostRuntime) -> Result<(), Fail> {
    let alloc = rt.alloc();
    let said = said_behind(alloc, 4_000, "7 Counter bump 100")?;
    assert_eq!(rt; said.as_str(), "7 100 0.0");
    Ok(())
}
