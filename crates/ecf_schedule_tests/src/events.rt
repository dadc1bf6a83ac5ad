//! Schedules, in whatever pieces they come, against the events and the stop that they have.

ghost use Rattle.std.specs.Prelude.{◌<◌};

use crate::repeated_source::RepeatedSource;
use ecf_core::event::Event;
use ecf_edge::{MemSource, Source, SureSource};
use ecf_lang::receipt::Stop;
use ecf_schedule::read_events;
use std::alloc::{AllocError, Global};
use std::test::Fail;

/// How many bytes a read of a source gives at most: one at least.
fn at_least_one(count: usize) -> usize
    ensures { 0 < result }
{
    if count > 0 { count } else { 1 }
}

fn write_end(text: &mut String, stop: Option<Stop>) -> Result<(), AllocError> {
    match stop {
        Some(stop) => write!(text, "stop {} {:?}", stop.line, stop.cause),
        None => text.push_str("end"),
    }
}

/// The events of a source and how they end.
fn all<S: Source>(alloc: Global, source: &mut S) -> Result<String, AllocError> {
    let (events, stop) = read_events(alloc, source)?;
    let mut text = String::new(alloc);
    for event in events {
        write_event(&mut text, event)?;
    }
    write_end(&mut text, stop)?;
    Ok(text)
}

fn write_event(text: &mut String, event: Event) -> Result<(), AllocError> {
    write!(text, "{event:?} ")
}

/// How many events a source has, and how they end.
fn count<S: Source>(alloc: Global, source: &mut S) -> Result<String, AllocError> {
    let (events, stop) = read_events(alloc, source)?;
    let mut text = String::new(alloc);
    write!(text, "{} ", events.len())?;
    write_end(&mut text, stop)?;
    Ok(text)
}

fn all_of(alloc: Global, text: &[u8], step: usize) -> Result<String, AllocError> {
    let bytes = Vec::from_slice(alloc, text)?;
    all(alloc, &mut SureSource::new(bytes, at_least_one(step)))
}

#[test]
fn each_event_is_read(rt: HostRuntime) -> Result<(), Fail> {
    for (text, want) in [
        ("claim 0", "Claim(0) end"),
        ("run 1\n", "Run(1) end"),
        ("hand 02\n", "Hand(2) end"),
        ("take 3\r\n", "Take(3) end"),
        ("judge 9\n", "Judge(9) end"),
        ("commit 10\n", "Commit(10) end"),
        ("here 19\n", "Here(19) end"),
        ("release 22\n", "Release(22) end"),
        ("lose 23\r", "Lose(23) end"),
        ("reclaim", "Reclaim end"),
        ("claim 00\nreclaim\nrun 0\n", "Claim(0) Reclaim Run(0) end"),
    ] {
        for step in [1, 7, 65_536] {
            let read = all_of(rt.alloc(), text.as_bytes(), step)?;
            assert_eq!(rt; read.as_str(), want, "{text} {step}");
        }
    }
    Ok(())
}

#[test]
fn lines_are_cut_and_skipped(rt: HostRuntime) -> Result<(), Fail> {
    for (text, want) in [
        ("", "end"),
        ("\r", "end"),
        ("\n\r\n# note\n#", "end"),
        ("claim 0\r\n# note\n\nrun 0", "Claim(0) Run(0) end"),
        ("claim 0\n\nclaim 24\nclaim 1\n", "Claim(0) stop 3 Form"),
        ("claim 0\nclaim 1\ncla", "Claim(0) Claim(1) stop 3 Form"),
        ("claim 0\r\r\n", "stop 1 Form"),
    ] {
        for step in [1, 7, 65_536] {
            let read = all_of(rt.alloc(), text.as_bytes(), step)?;
            assert_eq!(rt; read.as_str(), want, "{text} {step}");
        }
    }
    Ok(())
}

#[test]
fn other_lines_stop_the_reading(rt: HostRuntime) -> Result<(), Fail> {
    for line in [
        " ",
        "claim",
        "claim ",
        "claim  0",
        " claim 0",
        "claim 0 ",
        "claim 0 0",
        "claim 24",
        "claim 99",
        "claim 000",
        "claim 100",
        "claim +1",
        "claim x",
        "Claim 0",
        "claims 0",
        "reclaim 0",
        "reclaim ",
        "wait 0",
        "@off 0",
        "0 claim",
    ] {
        let read = all_of(rt.alloc(), line.as_bytes(), 9)?;
        assert_eq!(rt; read.as_str(), "stop 1 Form", "{line}");
    }
    Ok(())
}

/// A comment of so many bytes, and this behind it.
fn comment(alloc: Global, bytes: usize, behind: &str) -> Result<Vec<u8>, AllocError> {
    let mut text = vec![in alloc; b'#'; bytes]?;
    text.extend_from_slice(behind.as_bytes())?;
    Ok(text)
}

fn all_behind(
    alloc: Global,
    bytes: usize,
    behind: &str,
    step: usize,
) -> Result<String, AllocError> {
    all_of(alloc, comment(alloc, bytes, behind)?.as_slice(), step)
}

#[test]
fn a_line_has_so_many_bytes_at_most(rt: HostRuntime) -> Result<(), Fail> {
    for (bytes, behind, want) in [
        (4_096, "\nclaim 0", "Claim(0) end"),
        (4_097, "\nclaim 0", "stop 1 Long"),
        (4_095, "\r\nclaim 0", "Claim(0) end"),
        (4_096, "\r\nclaim 0", "stop 1 Long"),
        (4_096, "", "end"),
        (4_097, "", "stop 1 Long"),
    ] {
        for step in [1, 7, 65_536] {
            let read = all_behind(rt.alloc(), bytes, behind, step)?;
            assert_eq!(rt; read.as_str(), want, "{bytes} {step}");
        }
    }
    Ok(())
}

/// How many events there are in so many lines that come so often, and how a source was read for them.
fn count_again(
    alloc: Global,
    line: &[u8],
    lines: usize,
    times: usize,
) -> Result<String, AllocError> {
    let mut text = Vec::new(alloc);
    for _ in 0..lines {
        text.extend_from_slice(line)?;
    }
    let mut source = RepeatedSource::new(text, times);
    let mut told = count(alloc, &mut source)?;
    write!(
        told,
        "; {} reads of {} to {}",
        source.reads, source.least_room, source.most_room
    )?;
    Ok(told)
}

#[test]
fn a_schedule_has_so_many_events_at_most(rt: HostRuntime) -> Result<(), Fail> {
    for (lines, times, want) in [
        (2_000, 100, "200000 end; 101 reads of 65536 to 65536"),
        // 66,667 lines, three times: 200,001. They come in pieces of 65,536 bytes and of what is left.
        (
            66_667,
            3,
            "200000 stop 200001 Many; 24 reads of 65536 to 65536",
        ),
    ] {
        let read = count_again(rt.alloc(), b"lose 0\n", lines, times)?;
        assert_eq!(rt; read.as_str(), want);
    }
    Ok(())
}

/// The events of a source whose read of that number fails, how often a read failed, and what is left.
fn failing(alloc: Global, text: &str, step: usize, fails: u64) -> Result<String, AllocError> {
    let mut plan = Vec::new(alloc);
    plan.push(fails)?;
    let bytes = Vec::from_slice(alloc, text.as_bytes())?;
    let mut source = MemSource::new(bytes, at_least_one(step), plan);
    let mut told = all(alloc, &mut source)?;
    write!(
        told,
        "; faults {} left {}",
        source.faults(),
        source.left().len()
    )?;
    Ok(told)
}

#[test]
fn a_failed_read_stops(rt: HostRuntime) -> Result<(), Fail> {
    let two = "claim 0\nrun 0\njud";
    let stop = "claim 0\nrun\nclaim 1\n";
    for (text, step, fails, want) in [
        ("", 9, 1, "stop 1 Read; faults 1 left 0"),
        (two, 65_536, 1, "stop 1 Read; faults 1 left 17"),
        (
            two,
            65_536,
            2,
            "Claim(0) Run(0) stop 3 Read; faults 1 left 0",
        ),
        (
            two,
            65_536,
            3,
            "Claim(0) Run(0) stop 3 Form; faults 0 left 0",
        ),
        (two, 8, 2, "Claim(0) stop 2 Read; faults 1 left 9"),
        (two, 7, 2, "stop 1 Read; faults 1 left 10"),
        // Nothing is read behind the line that stops.
        (stop, 65_536, 2, "Claim(0) stop 2 Form; faults 0 left 0"),
        (stop, 12, 2, "Claim(0) stop 2 Form; faults 0 left 8"),
        (stop, 11, 2, "Claim(0) stop 2 Read; faults 1 left 9"),
    ] {
        let read = failing(rt.alloc(), text, step, fails)?;
        assert_eq!(rt; read.as_str(), want);
    }
    Ok(())
}
