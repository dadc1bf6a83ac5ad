//! Streams of more than one round: what a failed write leaves of the journal and of the stream.

use crate::calls::{
    COUNTER, Fails, LINE, numbers, shelf_of, sink_of, source_of, status_of, words_of,
};
use std::alloc::{AllocError, Global};
use std::test::Fail;

/// The most bytes that a read gives and a write takes here: each text is written at once.
const STEP: usize = 1_000_000;

/// So many lines that call the counter.
fn lines(alloc: Global, count: usize) -> Result<String, AllocError> {
    let mut text = String::new(alloc);
    for _ in 0..count {
        text.push_str(LINE)?;
    }
    Ok(text)
}

fn lines_in(bytes: &[u8]) -> usize {
    let mut count = 0_usize;
    for byte in bytes {
        if *byte == b'\n' {
            count = count.saturating_add(1);
        }
    }
    count
}

/// The status of running so many lines, how many lines the journal has then, and how many bytes the source still has.
fn ran(rt: &HostRuntime, count: usize, fails: Fails) -> Result<String, AllocError> {
    let alloc = rt.alloc();
    let (fetch, read, write, note) = numbers(fails);
    let words = words_of(alloc, "run", "c.ecf")?;
    let contract = Vec::from_slice(alloc, COUNTER.as_bytes())?;
    let stream = lines(alloc, count)?;
    let mut shelf = shelf_of(alloc, contract, fetch)?;
    let mut input = source_of(alloc, stream.as_str(), STEP, read)?;
    let mut out = sink_of(alloc, STEP, write)?;
    let mut note = sink_of(alloc, STEP, note)?;
    let status = status_of(
        rt,
        words.as_slice(),
        &mut shelf,
        &mut input,
        &mut out,
        &mut note,
    );
    format!(in alloc;
        "{status} lines {} left {}",
        lines_in(out.held()),
        input.left().len()
    )
}

// A line has 19 bytes and a read takes 65,536 at most, so two reads give the 4,096 lines of a round.
#[test]
fn a_round_is_written_before_the_next_is_read(rt: HostRuntime) -> Result<(), Fail> {
    for (count, fails, want) in [
        (4_096, Fails::Never, "0 lines 4099 left 0"),
        (4_097, Fails::Never, "0 lines 4100 left 0"),
        (10_000, Fails::Write(1), "5 lines 0 left 190000"),
        (10_000, Fails::Write(2), "5 lines 1 left 58928"),
        (10_000, Fails::Write(3), "5 lines 4097 left 0"),
        (4_096, Fails::Write(3), "5 lines 4097 left 0"),
        (10_000, Fails::Read(3), "4 lines 6902 left 58928"),
    ] {
        let text = ran(&rt, count, fails)?;
        assert_eq!(rt; text.as_str(), want);
    }
    Ok(())
}
