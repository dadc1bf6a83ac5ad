//! Streams, in whatever pieces they come, against the transactions and the stop that they have.

use crate::cut_source::CutSource;
use crate::stream_contract::{LINE, at_least_one, contract, zeros_before};
use ecf_edge::{MemSource, Source, SureSource};
use ecf_stream::{Part, READ_BYTES, StreamReader};
use std::alloc::{AllocError, Global};
use std::test::Fail;

/// Adds what a part says of itself.
fn write_part(text: &mut String, part: &Part) -> Result<(), AllocError> {
    write!(text, "{}", part.txs.len())?;
    if let Some(watch) = part.off {
        write!(text, " off {watch}")?;
    }
    match part.stop {
        Some(stop) => write!(text, " stop {} {:?}", stop.line, stop.cause)?,
        None if part.ended => text.push_str(" end")?,
        None => {}
    }
    text.push_str("; ")
}

/// The parts of so many rounds.
fn parts<S: Source>(
    alloc: Global,
    reader: &mut StreamReader,
    source: &mut S,
    most: usize,
    rounds: usize,
) -> Result<String, AllocError> {
    let typed = contract(alloc)?;
    let mut text = String::new(alloc);
    for _ in 0..rounds {
        let part = reader.round(alloc, &typed, source, at_least_one(most))?;
        write_part(&mut text, &part)?;
    }
    Ok(text)
}

/// How many transactions there are up to the last part, and how that ends.
fn whole<S: Source>(alloc: Global, source: &mut S, most: usize) -> Result<String, AllocError> {
    whole_by(alloc, &mut StreamReader::new(alloc)?, source, most)
}

fn whole_by<S: Source>(
    alloc: Global,
    reader: &mut StreamReader,
    source: &mut S,
    most: usize,
) -> Result<String, AllocError> {
    let typed = contract(alloc)?;
    let mut count = 0usize;
    for _ in 0..300_000 {
        let part = reader.round(alloc, &typed, source, at_least_one(most))?;
        count = count.saturating_add(part.txs.len());
        if part.ended {
            return match part.stop {
                Some(stop) => format!(in alloc; "{count} stop {} {:?}", stop.line, stop.cause),
                None => format!(in alloc; "{count} end"),
            };
        }
    }
    String::from_str(alloc, "no end")
}

/// The whole of a text that comes in pieces of so many bytes.
fn whole_of(alloc: Global, text: &[u8], step: usize, most: usize) -> Result<String, AllocError> {
    let bytes = Vec::from_slice(alloc, text)?;
    whole(alloc, &mut SureSource::new(bytes, at_least_one(step)), most)
}

/// The whole of a text that comes in pieces of sizes which look random.
fn whole_of_cut(alloc: Global, text: &[u8], seed: u64, most: usize) -> Result<String, AllocError> {
    let bytes = Vec::from_slice(alloc, text)?;
    whole(alloc, &mut CutSource::uneven(bytes, seed), most)
}

const STREAMS: [(&str, &str); 12] = [
    ("", "0 end"),
    ("\r", "0 end"),
    ("\n\n", "0 end"),
    ("# note", "0 end"),
    ("1 Counter bump 100\r\n# note\n1 Counter bump 100", "2 end"),
    (
        "1 Counter bump 100\n\n1 Counter jump 100\n1 Counter bump 100\n",
        "1 stop 3 Method",
    ),
    (
        "1 Counter bump 100\n1 Counter bump 100\n1 Cou",
        "2 stop 3 Form",
    ),
    (
        "1 Counter bump 100 ; Bank put 1 true Bank\n1 Counter bump 100 ;",
        "1 stop 2 Form",
    ),
    ("@off 0\n", "0 stop 1 Form"),
    ("1 Counter bump 100\r\r\n", "0 stop 1 Fuel"),
    ("1 Counter bump 1", "1 end"),
    ("\n\r\n1 Counter bump 100 \n", "0 stop 3 Form"),
];

#[test]
fn streams_have_these_transactions(rt: HostRuntime) -> Result<(), Fail> {
    let alloc = rt.alloc();
    for (text, want) in STREAMS {
        for most in [1, 2, 200_000] {
            for step in [1, 7, READ_BYTES] {
                let read = whole_of(alloc, text.as_bytes(), step, most)?;
                assert_eq!(rt; read.as_str(), want, "{text} {step} {most}");
            }
            for seed in 0..5 {
                let read = whole_of_cut(alloc, text.as_bytes(), seed, most)?;
                assert_eq!(rt; read.as_str(), want, "{text} {seed} {most}");
            }
        }
    }
    Ok(())
}

/// Three lines that end so, the one at that place as it is given, behind so many zeros.
fn three_lines(
    alloc: Global,
    zeros: usize,
    line: &str,
    place: usize,
    ends: (&str, &str),
) -> Result<Vec<u8>, AllocError> {
    let mut text = Vec::new(alloc);
    for number in 0..3 {
        if number == place {
            text.extend_from_slice(zeros_before(alloc, zeros, line)?.as_slice())?;
        } else {
            text.extend_from_slice(LINE.as_bytes())?;
        }
        text.extend_from_slice(if number == 2 { ends.1 } else { ends.0 }.as_bytes())?;
    }
    Ok(text)
}

/// The whole of those lines, as text and again in pieces of seven bytes and of sizes that look random.
fn whole_of_three(
    alloc: Global,
    zeros: usize,
    line: &str,
    place: usize,
    ends: (&str, &str),
) -> Result<String, AllocError> {
    let text = three_lines(alloc, zeros, line, place, ends)?;
    let mut read = whole_of(alloc, text.as_slice(), READ_BYTES, 2)?;
    for other in [
        whole_of(alloc, text.as_slice(), 7, 1)?,
        whole_of_cut(alloc, text.as_slice(), 1, 9)?,
    ] {
        if other.as_str() != read.as_str() {
            read.push_str(" or ")?;
            read.push_str(other.as_str())?;
        }
    }
    Ok(read)
}

/// How three lines may end: the first two, and the last.
const ENDS: [(&str, &str); 4] = [("\n", "\n"), ("\r\n", "\r\n"), ("\n", ""), ("\r\n", "")];

#[test]
fn each_cause_stops_at_each_place(rt: HostRuntime) -> Result<(), Fail> {
    let alloc = rt.alloc();
    for (zeros, line, cause) in [
        (0, "1 Counter bump", "Form"),
        (0, "1 Nobody bump 100", "Object"),
        (0, "1 Counter jump 100", "Method"),
        (0, "1 Counter bump 0", "Fuel"),
        (0, "1 Counter bump 100 1", "Arity"),
        (0, "1 Bank put 100 1 1 Bank", "Arg"),
        // 18 bytes behind these zeros.
        (4_079, LINE, "Long"),
    ] {
        for ends in ENDS {
            for (place, stop) in [(0, "0 stop 1"), (1, "1 stop 2"), (2, "2 stop 3")] {
                let read = whole_of_three(alloc, zeros, line, place, ends)?;
                let want = format!(in alloc; "{stop} {cause}")?;
                assert_eq!(rt; read.as_str(), want.as_str(), "{line}");
            }
        }
    }
    Ok(())
}

/// Three transactions, in pieces of seven bytes, where so many more may come.
fn whole_with_room(alloc: Global, room: u8, ends: (&str, &str)) -> Result<String, AllocError> {
    let text = three_lines(alloc, 0, LINE, 0, ends)?;
    let mut source = SureSource::new(text, at_least_one(7));
    let mut reader = StreamReader::with_controls(alloc, 200_000 - u32::from(room))?;
    whole_by(alloc, &mut reader, &mut source, 2)
}

#[test]
fn many_stops_at_each_place(rt: HostRuntime) -> Result<(), Fail> {
    for ends in ENDS {
        for (room, want) in [
            (0, "0 stop 1 Many"),
            (1, "1 stop 2 Many"),
            (2, "2 stop 3 Many"),
            (3, "3 end"),
        ] {
            let read = whole_with_room(rt.alloc(), room, ends)?;
            assert_eq!(rt; read.as_str(), want);
        }
    }
    Ok(())
}

/// What so many lines say that come again and again.
fn whole_again(
    alloc: Global,
    lines: usize,
    again: usize,
    most: usize,
) -> Result<String, AllocError> {
    let mut text = Vec::new(alloc);
    for _ in 0..lines {
        text.extend_from_slice(LINE.as_bytes())?;
        text.push(b'\n')?;
    }
    whole(alloc, &mut CutSource::repeated(text, again), most)
}

#[test]
fn a_stream_has_so_many_transactions_at_most(rt: HostRuntime) -> Result<(), Fail> {
    // 489 lines, 409 times: 200,001.
    let read = whole_again(rt.alloc(), 489, 408, 200_000)?;
    assert_eq!(rt; read.as_str(), "200000 stop 200001 Many");
    Ok(())
}

/// The whole of a text behind so many zeros, in pieces of so many bytes.
fn whole_behind(
    alloc: Global,
    zeros: usize,
    text: &str,
    step: usize,
) -> Result<String, AllocError> {
    whole_of(alloc, zeros_before(alloc, zeros, text)?.as_slice(), step, 9)
}

#[test]
fn a_line_has_so_many_bytes_at_most(rt: HostRuntime) -> Result<(), Fail> {
    let alloc = rt.alloc();
    // The line has 18 bytes before its CR or LF.
    for (zeros, text, want) in [
        (4_078, "7 Counter bump 100\n", "1 end"),
        (4_079, "7 Counter bump 100\n", "0 stop 1 Long"),
        (4_077, "7 Counter bump 100\r\n", "1 end"),
        (4_078, "7 Counter bump 100\r\n", "0 stop 1 Long"),
        (4_078, "7 Counter bump 100", "1 end"),
        (4_079, "7 Counter bump 100", "0 stop 1 Long"),
    ] {
        for step in [1, 7, READ_BYTES] {
            let read = whole_behind(alloc, zeros, text, step)?;
            assert_eq!(rt; read.as_str(), want, "{zeros} {text} {step}");
        }
    }
    Ok(())
}

/// Two rounds of a source whose read of that number fails, how often a read failed, and what is left.
fn failing(alloc: Global, text: &str, step: usize, fails: u64) -> Result<String, AllocError> {
    let mut plan = Vec::new(alloc);
    plan.push(fails)?;
    let bytes = Vec::from_slice(alloc, text.as_bytes())?;
    let mut source = MemSource::new(bytes, at_least_one(step), plan);
    let mut reader = StreamReader::new(alloc)?;
    let mut told = parts(alloc, &mut reader, &mut source, 9, 2)?;
    write!(
        told,
        "faults {} left {}",
        source.faults(),
        source.left().len()
    )?;
    Ok(told)
}

#[test]
fn a_failed_read_stops(rt: HostRuntime) -> Result<(), Fail> {
    let alloc = rt.alloc();
    let two = "1 Counter bump 100\n1 Counter bump 100\n1 Cou";
    let stop = "1 Counter bump 100\n1 Counter\n1 Counter bump 100\n";
    for (text, step, fails, want) in [
        (
            two,
            READ_BYTES,
            1,
            "0 stop 1 Read; 0 stop 1 Read; faults 1 left 43",
        ),
        (
            two,
            READ_BYTES,
            2,
            "2 stop 3 Read; 0 stop 3 Read; faults 1 left 0",
        ),
        (
            two,
            READ_BYTES,
            3,
            "2 stop 3 Form; 0 stop 3 Form; faults 0 left 0",
        ),
        (two, 19, 2, "1 stop 2 Read; 0 stop 2 Read; faults 1 left 24"),
        (two, 20, 2, "1 stop 2 Read; 0 stop 2 Read; faults 1 left 23"),
        // Nothing is read behind the line that stops.
        (
            stop,
            READ_BYTES,
            2,
            "1 stop 2 Form; 0 stop 2 Form; faults 0 left 0",
        ),
        (
            stop,
            29,
            2,
            "1 stop 2 Form; 0 stop 2 Form; faults 0 left 19",
        ),
        (
            stop,
            28,
            2,
            "1 stop 2 Read; 0 stop 2 Read; faults 1 left 20",
        ),
        ("", 9, 1, "0 stop 1 Read; 0 stop 1 Read; faults 1 left 0"),
    ] {
        let read = failing(alloc, text, step, fails)?;
        assert_eq!(rt; read.as_str(), want);
    }
    Ok(())
}

/// What comes of lines that end so, and of what stands behind them where a read fails.
fn failing_behind(
    alloc: Global,
    lines: u8,
    end: &str,
    begun: &str,
    step: usize,
) -> Result<String, AllocError> {
    let mut text = String::new(alloc);
    for _ in 0..lines {
        text.push_str(LINE)?;
        text.push_str(end)?;
    }
    text.push_str(begun)?;
    let reads = text.len().div_ceil(at_least_one(step)) as u64;
    failing(alloc, text.as_str(), step, reads.saturating_add(1))
}

#[test]
fn read_stops_at_each_place(rt: HostRuntime) -> Result<(), Fail> {
    let alloc = rt.alloc();
    for begun in [
        "",
        "\r",
        "1 Cou",
        LINE,
        "1 Counter bump 100\r",
        "1 Counter jump",
    ] {
        for end in ["\n", "\r\n"] {
            for (lines, stop) in [(0, 1), (1, 2), (2, 3)] {
                let want = format!(in alloc;
                    "{lines} stop {stop} Read; 0 stop {stop} Read; faults 1 left 0"
                )?;
                for step in [1, 7, READ_BYTES] {
                    let read = failing_behind(alloc, lines, end, begun, step)?;
                    assert_eq!(rt; read.as_str(), want.as_str(), "{begun} {step}");
                }
            }
        }
    }
    Ok(())
}

/// The parts of a stream with control lines, behind so many transactions.
fn controlled(alloc: Global, have: u8, text: &str, most: usize) -> Result<String, AllocError> {
    let bytes = Vec::from_slice(alloc, text.as_bytes())?;
    let mut source = SureSource::new(bytes, at_least_one(7));
    let mut reader = StreamReader::with_controls(alloc, 200_000 - u32::from(have))?;
    parts(alloc, &mut reader, &mut source, most, 4)
}

#[test]
fn control_lines_end_parts(rt: HostRuntime) -> Result<(), Fail> {
    for (room, text, most, want) in [
        (
            2,
            "1 Counter bump 100\n@off 07\n@off 1\n1 Counter bump 100\n@off 123\n",
            9,
            "1 off 7; 0 off 1; 1 stop 5 Many; 0 stop 5 Many; ",
        ),
        (
            9,
            "1 Counter bump 100\n@off 07\n@off 1\n1 Counter bump 100\n@off 123\n",
            1,
            "1; 0 off 7; 0 off 1; 1; ",
        ),
        (
            9,
            "@off 123\n",
            9,
            "0 stop 1 Form; 0 stop 1 Form; 0 stop 1 Form; 0 stop 1 Form; ",
        ),
        (9, "@off 9", 9, "0 off 9; 0 end; 0 end; 0 end; "),
        (
            0,
            "#\n@off 00\n@off 1 \n",
            9,
            "0 off 0; 0 stop 3 Many; 0 stop 3 Many; 0 stop 3 Many; ",
        ),
        (
            1,
            "1 Counter bump 100\n1 Counter bump 100",
            9,
            "1 stop 2 Many; 0 stop 2 Many; 0 stop 2 Many; 0 stop 2 Many; ",
        ),
        (
            9,
            "1 Counter bump 100\n1 Counter bump 100",
            1,
            "1; 1 end; 0 end; 0 end; ",
        ),
    ] {
        let read = controlled(rt.alloc(), room, text, most)?;
        assert_eq!(rt; read.as_str(), want);
    }
    Ok(())
}

/// How a source of pieces of so many bytes was read by a round, and for how many bytes each read asked.
fn reads_of(alloc: Global, text: &[u8], size: usize, most: usize) -> Result<String, AllocError> {
    let mut source = CutSource::even(Vec::from_slice(alloc, text)?, size);
    let mut reader = StreamReader::new(alloc)?;
    let told = parts(alloc, &mut reader, &mut source, most, 1)?;
    format!(in alloc;
        "{told}{} reads of {} to {}",
        source.reads, source.least_room, source.most_room
    )
}

fn reads_behind(
    alloc: Global,
    zeros: usize,
    text: &str,
    size: usize,
    most: usize,
) -> Result<String, AllocError> {
    reads_of(
        alloc,
        zeros_before(alloc, zeros, text)?.as_slice(),
        size,
        most,
    )
}

#[test]
fn no_read_is_made_in_vain(rt: HostRuntime) -> Result<(), Fail> {
    let lines = "1 Counter bump 100\n1 Counter bump 100\n1 Counter bump 100\n";
    for (zeros, text, size, most, want) in [
        (0, lines, 19, 1, "1; 1 reads of 65536 to 65536"),
        (0, lines, 18, 1, "1; 2 reads of 65536 to 65536"),
        (0, lines, 7, 2, "2; 6 reads of 65536 to 65536"),
        (0, lines, 57, 9, "3 end; 2 reads of 65536 to 65536"),
        (
            0,
            "1 Counter\n1 Counter\n",
            10,
            9,
            "0 stop 1 Form; 1 reads of 65536 to 65536",
        ),
        (
            5_000,
            lines,
            4_097,
            9,
            "0 stop 1 Long; 1 reads of 65536 to 65536",
        ),
        (
            5_000,
            lines,
            4_096,
            9,
            "0 stop 1 Long; 2 reads of 65536 to 65536",
        ),
        (
            70_000,
            lines,
            70_000,
            9,
            "0 stop 1 Long; 1 reads of 65536 to 65536",
        ),
    ] {
        let read = reads_behind(rt.alloc(), zeros, text, size, most)?;
        assert_eq!(rt; read.as_str(), want);
    }
    Ok(())
}
