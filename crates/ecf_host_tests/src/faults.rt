//! Each read, write and write of a note fails in turn.

use crate::calls::{Case, Fails, JOURNAL, called, counted, told};
use std::alloc::{AllocError, Global};

const MISSING: &str = "contract: missing\n";

/// What a call over the counter answers and leaves.
fn ran(rt: &HostRuntime, step: usize, fails: Fails) -> Result<String, AllocError> {
    called(rt, counted(step, fails))
}

/// The same where the contract is missing.
fn ran_without(rt: &HostRuntime, step: usize, fails: Fails) -> Result<String, AllocError> {
    let case = Case {
        file: "d.ecf",
        ..counted(step, fails)
    };
    called(rt, case)
}

fn front(text: &str, len: usize) -> &[u8] {
    text.as_bytes().get(..len).unwrap_or(&[])
}

/// What is told where so many bytes of the journal were written.
fn cut_journal(alloc: Global, len: usize) -> Result<String, AllocError> {
    told(alloc, 5, front(JOURNAL, len), &[])
}

/// What is told where so many bytes of the note were written.
fn cut_note(alloc: Global, len: usize) -> Result<String, AllocError> {
    told(alloc, 5, &[], front(MISSING, len))
}

#[test]
fn stops_at_a_write_that_fails(rt: HostRuntime) -> Result<(), AllocError> {
    let text = ran(&rt, 8, Fails::Write(2))?;
    assert_eq!(rt; text.as_str(), "5 out journal  note ");
    let text = ran_without(&rt, 8, Fails::Note(2))?;
    assert_eq!(rt; text.as_str(), "5 out  note contract");
    Ok(())
}

// One byte a read: the line is whole with its 19th byte, and the stream's end comes with the 20th read.
#[test]
fn stops_at_each_read_that_fails(rt: HostRuntime) -> Result<(), AllocError> {
    for number in 1..20 {
        let text = ran(&rt, 1, Fails::Read(number))?;
        assert_eq!(rt; text.as_str(), "4 out journal 2\nstop 1 read\nend\n note ");
    }
    let text = ran(&rt, 1, Fails::Read(20))?;
    assert_eq!(rt;
        text.as_str(),
        "4 out journal 2\n1 1.1 Counter bump 100 -> committed 1 fuel 14\nstop 2 read\nend\nCounter.n = 1\n note "
    );
    let due = told(rt.alloc(), 0, JOURNAL.as_bytes(), &[])?;
    for fails in [Fails::Read(21), Fails::Fetch(2)] {
        let text = ran(&rt, 1, fails)?;
        assert_eq!(rt; text.as_str(), due.as_str());
    }
    Ok(())
}

#[test]
fn answers_at_each_write_that_fails(rt: HostRuntime) -> Result<(), AllocError> {
    for len in 0..JOURNAL.len() {
        let text = ran(&rt, 1, Fails::Write(len as u64 + 1))?;
        let due = cut_journal(rt.alloc(), len)?;
        assert_eq!(rt; text.as_str(), due.as_str());
    }
    for len in 0..MISSING.len() {
        let text = ran_without(&rt, 1, Fails::Note(len as u64 + 1))?;
        let due = cut_note(rt.alloc(), len)?;
        assert_eq!(rt; text.as_str(), due.as_str());
    }
    Ok(())
}
