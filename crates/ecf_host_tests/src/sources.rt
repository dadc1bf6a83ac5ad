//! Sources in memory, read whole and piece by piece.

use crate::helpers::{at_least_one, push_bytes};
use ecf_edge::{Failed, Fetch, Incomplete, MemSource, Reading, Source, SureSource, read_all};
use std::alloc::{AllocError, Global};
use std::test::Fail;

const TEXT: &str = "abcdefgh";

fn sure(alloc: Global, step: usize) -> Result<SureSource, AllocError> {
    let bytes = TEXT.as_bytes().to_vec(alloc)?;
    Ok(SureSource::new(bytes, at_least_one(step)))
}

fn planned(alloc: Global, step: usize, fails: &[u64]) -> Result<MemSource, AllocError> {
    let bytes = TEXT.as_bytes().to_vec(alloc)?;
    let fails = fails.to_vec(alloc)?;
    Ok(MemSource::new(bytes, at_least_one(step), fails))
}

fn reading_of<S: Source>(
    alloc: Global,
    source: &mut S,
    most: usize,
) -> Result<Reading, AllocError> {
    read_all(alloc, source, most)
}

/// Why a reading stopped, what came, and what is left of its source.
fn told(alloc: Global, reading: &Reading, left: &[u8]) -> Result<String, AllocError> {
    let mut text = format!(in alloc; "{:?} ", reading.ending)?;
    push_bytes(&mut text, reading.bytes.as_slice())?;
    text.push('|')?;
    push_bytes(&mut text, left)?;
    Ok(text)
}

/// The whole of a source none of whose reads fails.
fn sure_reading(alloc: Global, step: usize, most: usize) -> Result<String, AllocError> {
    let mut source = sure(alloc, step)?;
    let reading = reading_of(alloc, &mut source, most)?;
    told(alloc, &reading, source.left())
}

/// The whole of a source one of whose reads fails, and how many have failed.
fn planned_reading(
    alloc: Global,
    step: usize,
    most: usize,
    fails: u64,
) -> Result<(String, u64), AllocError> {
    let mut source = planned(alloc, step, &[fails])?;
    let reading = reading_of(alloc, &mut source, most)?;
    let text = told(alloc, &reading, source.left())?;
    Ok((text, source.faults()))
}

#[test]
fn a_source_is_read_to_its_end_or_over_the_limit(rt: HostRuntime) -> Result<(), Fail> {
    for (step, most, want) in [
        (1, 8, "End abcdefgh|"),
        (2, 8, "End abcdefgh|"),
        (3, 8, "End abcdefgh|"),
        (7, 8, "End abcdefgh|"),
        (100, 8, "End abcdefgh|"),
        (3, 0, "OverLimit a|bcdefgh"),
        (3, 4, "OverLimit abcde|fgh"),
        (3, 7, "OverLimit abcdefgh|"),
    ] {
        let text = sure_reading(rt.alloc(), step, most)?;
        assert_eq!(rt; text.as_str(), want);
    }
    Ok(())
}

// One byte a read, so that the read after the failed one would come. The ninth finds the end.
#[test]
fn a_source_is_read_to_a_failed_read(rt: HostRuntime) -> Result<(), Fail> {
    for (number, want, faults) in [
        (1, "Failed |abcdefgh", 1),
        (2, "Failed a|bcdefgh", 1),
        (5, "Failed abcd|efgh", 1),
        (8, "Failed abcdefg|h", 1),
        (9, "Failed abcdefgh|", 1),
        (10, "End abcdefgh|", 0),
    ] {
        let (text, count) = planned_reading(rt.alloc(), 1, 100, number)?;
        assert_eq!(rt; text.as_str(), want);
        assert_eq!(rt; count, faults);
    }
    Ok(())
}

/// A reading as the answer of a fetch.
fn fetched(alloc: Global, most: usize, fails: u64) -> Result<Vec<u8>, Fetch> {
    let mut source = planned(alloc, 3, &[fails])?;
    Ok(reading_of(alloc, &mut source, most)?.whole()?)
}

fn fetched_text(alloc: Global, most: usize, fails: u64) -> Result<String, AllocError> {
    match fetched(alloc, most, fails) {
        Ok(content) => String::from_utf8_lossy(alloc, content.as_slice()),
        Err(fault) => format!(in alloc; "{fault:?}"),
    }
}

#[test]
fn a_reading_is_whole_or_says_why_not(rt: HostRuntime) -> Result<(), Fail> {
    for (most, fails, want) in [(8, 100, "abcdefgh"), (7, 100, "TooLong"), (8, 2, "Failed")] {
        let text = fetched_text(rt.alloc(), most, fails)?;
        assert_eq!(rt; text.as_str(), want);
    }
    Ok(())
}

/// What one read into so much room brings, or `Failed`.
fn piece_of<S: Source>(alloc: Global, source: &mut S, room: usize) -> Result<String, AllocError> {
    let mut buffer = vec![in alloc; 0; room]?;
    match source.read(&mut buffer) {
        Ok(count) => String::from_utf8_lossy(alloc, &buffer[..count]),
        Err(fault) => format!(in alloc; "{fault:?}"),
    }
}

/// Four bytes of a source and what is left of it, and how many reads have failed.
fn next_piece(alloc: Global, source: &mut MemSource) -> Result<(String, u64), AllocError> {
    let mut text = piece_of(alloc, source, 4)?;
    text.push('|')?;
    push_bytes(&mut text, source.left())?;
    Ok((text, source.faults()))
}

#[test]
fn a_source_goes_on_after_a_failed_read(rt: HostRuntime) -> Result<(), Fail> {
    let alloc = rt.alloc();
    let mut source = planned(alloc, 3, &[2, 4])?;
    for (want, faults) in [
        ("abc|defgh", 0),
        ("Failed|defgh", 1),
        ("def|gh", 1),
        ("Failed|gh", 2),
        ("gh|", 2),
        ("|", 2),
    ] {
        let (text, count) = next_piece(alloc, &mut source)?;
        assert_eq!(rt; text.as_str(), want);
        assert_eq!(rt; count, faults);
    }
    Ok(())
}

#[test]
fn a_read_fills_its_room_at_most(rt: HostRuntime) -> Result<(), Fail> {
    let alloc = rt.alloc();
    let mut source = sure(alloc, 3)?;
    for (room, want) in [(0, ""), (2, "ab"), (4, "cde")] {
        let piece = piece_of(alloc, &mut source, room)?;
        assert_eq!(rt; piece.as_str(), want);
    }
    Ok(())
}

#[test]
fn faults_have_texts(rt: HostRuntime) -> Result<(), Fail> {
    let alloc = rt.alloc();
    let text = format!(in alloc;
        "{Failed}; {}; {}",
        Incomplete::Failed,
        Incomplete::OverLimit
    )?;
    assert_eq!(rt;
        text.as_str(),
        "the read failed; the read failed; the text is too long"
    );
    Ok(())
}
