//! Sinks in memory, written whole.

use crate::helpers::at_least_one;
use ecf_edge::{MemSink, Sink, SureSink, WriteFault, put_all};
use std::alloc::{AllocError, Global};
use std::test::Fail;

fn sure(alloc: Global, step: usize) -> SureSink {
    SureSink::new(alloc, at_least_one(step))
}

fn planned(alloc: Global, step: usize, fails: u64) -> Result<MemSink, AllocError> {
    let fails = vec![in alloc; fails]?;
    Ok(MemSink::new(alloc, at_least_one(step), fails))
}

fn put<K: Sink>(sink: &mut K, text: &str) -> Result<(), WriteFault> {
    put_all(sink, text.as_bytes())
}

/// What a sink holds where three texts were put on it.
fn held_of_three(alloc: Global, step: usize) -> Result<String, AllocError> {
    let mut sink = sure(alloc, step);
    for text in ["abcdefgh", "", "!"] {
        if let Err(fault) = put(&mut sink, text) {
            return format!(in alloc; "{fault:?}");
        }
    }
    String::from_utf8_lossy(alloc, sink.held())
}

#[test]
fn a_text_is_put_whole(rt: HostRuntime) -> Result<(), Fail> {
    for step in [1, 2, 3, 7, 100] {
        let held = held_of_three(rt.alloc(), step)?;
        assert_eq!(rt; held.as_str(), "abcdefgh!");
    }
    Ok(())
}

/// What putting twenty bytes answers where one write fails, what the sink holds, and how many writes have failed.
fn put_of_twenty(alloc: Global, step: usize, fails: u64) -> Result<String, AllocError> {
    let mut sink = planned(alloc, step, fails)?;
    let answer = put(&mut sink, "0123456789abcdefghij");
    let held = String::from_utf8_lossy(alloc, sink.held())?;
    format!(in alloc; "{answer:?} {held} {}", sink.faults())
}

#[test]
fn a_text_is_put_up_to_a_failed_write(rt: HostRuntime) -> Result<(), Fail> {
    for (step, fails, want) in [
        (8, 1, "Err(Failed)  1"),
        (8, 2, "Err(Failed) 01234567 1"),
        (8, 3, "Err(Failed) 0123456789abcdef 1"),
        (8, 4, "Ok(()) 0123456789abcdefghij 0"),
        (1, 20, "Err(Failed) 0123456789abcdefghi 1"),
        (1, 21, "Ok(()) 0123456789abcdefghij 0"),
    ] {
        let text = put_of_twenty(rt.alloc(), step, fails)?;
        assert_eq!(rt; text.as_str(), want);
    }
    Ok(())
}

#[test]
fn faults_have_texts(rt: HostRuntime) -> Result<(), Fail> {
    let alloc = rt.alloc();
    let text = format!(in alloc; "{}; {}", WriteFault::Failed, WriteFault::NoMemory)?;
    assert_eq!(rt; text.as_str(), "the write failed; out of memory");
    Ok(())
}
