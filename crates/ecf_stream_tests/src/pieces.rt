//! Pieces of streams against the lines to which they are cut.

use ecf_stream::{Fed, LineReader};
use std::alloc::{AllocError, Global};
use std::test::Fail;

/// What the reader answers to a piece, and the line at hand then.
fn fed(alloc: Global, reader: &mut LineReader, piece: &str) -> Result<String, AllocError> {
    let fed = reader.feed(piece.as_bytes());
    let mut text = match fed {
        Fed::More => format!(in alloc; "more")?,
        Fed::Line { taken } => format!(in alloc; "line {taken}")?,
        Fed::Long { taken } => format!(in alloc; "long {taken}")?,
        Fed::Bytes { taken } => format!(in alloc; "bytes {taken}")?,
    };
    write!(text, "; {}:", reader.number())?;
    for byte in reader.line() {
        text.push(char::from(*byte))?;
    }
    Ok(text)
}

/// A reader of at most four bytes a line and so many a stream.
fn reader_of(alloc: Global, most: u8) -> Result<LineReader, AllocError> {
    LineReader::new(alloc, 4, u64::from(most))
}

fn first_fed(alloc: Global, most: u8, text: &str) -> Result<String, AllocError> {
    fed(alloc, &mut reader_of(alloc, most)?, text)
}

#[test]
fn a_first_piece_is_cut(rt: HostRuntime) -> Result<(), Fail> {
    for (most, text, want) in [
        (9, "1234", "more; 1:1234"),
        (9, "1234\n", "line 5; 1:1234"),
        (9, "123\r\n6789", "line 5; 1:123"),
        (9, "1234\r\n", "long 5; 1:"),
        (9, "12345", "long 5; 1:"),
        (5, "1234\n", "line 5; 1:1234"),
        (4, "1234\n", "bytes 5; 1:"),
        (4, "12345", "long 5; 1:"),
        (3, "12345", "bytes 4; 1:"),
        (0, "", "more; 1:"),
        (0, "\n", "bytes 1; 1:"),
    ] {
        let text = first_fed(rt.alloc(), most, text)?;
        assert_eq!(rt; text.as_str(), want);
    }
    Ok(())
}

#[test]
fn pieces_go_on_where_others_ended(rt: HostRuntime) -> Result<(), Fail> {
    let alloc = rt.alloc();
    let mut reader = reader_of(alloc, 11)?;
    for (piece, want) in [
        ("1", "more; 1:1"),
        ("2\r", "more; 1:12"),
        ("\r", "more; 1:12\r"),
        ("\n\n", "line 1; 1:12\r"),
        ("\n", "line 1; 2:"),
        ("", "more; 3:"),
        ("789", "more; 3:789"),
        ("0", "more; 3:7890"),
        ("a\n", "long 1; 3:7890"),
        ("\n", "long 0; 3:7890"),
    ] {
        let text = fed(alloc, &mut reader, piece)?;
        assert_eq!(rt; text.as_str(), want, "{piece}");
    }
    assert!(rt; !reader.end());
    Ok(())
}

fn has_last(alloc: Global, text: &str) -> Result<bool, AllocError> {
    let mut reader = reader_of(alloc, 9)?;
    reader.feed(text.as_bytes());
    Ok(reader.end())
}

#[test]
fn a_last_line_is_told(rt: HostRuntime) -> Result<(), Fail> {
    for (text, want) in [
        ("", false),
        ("1", true),
        ("\r", true),
        ("1\n", false),
        ("12345", false),
    ] {
        assert_eq!(rt; has_last(rt.alloc(), text)?, want, "{text}");
    }
    Ok(())
}

/// Where a stream of so many bytes at most stops, and why, or how many lines it has that an LF ended.
fn stop_of(alloc: Global, most: u8, text: &str) -> Result<String, AllocError> {
    let mut reader = reader_of(alloc, most)?;
    let mut lines = 0u64;
    for byte in text.as_bytes() {
        match reader.feed(&[*byte]) {
            Fed::More => {}
            Fed::Line { .. } => lines = lines.saturating_add(1),
            Fed::Long { .. } => return format!(in alloc; "{} long", reader.number()),
            Fed::Bytes { .. } => return format!(in alloc; "{} bytes", reader.number()),
        }
    }
    format!(in alloc; "{lines} lines")
}

#[test]
fn bytes_stop_at_each_place(rt: HostRuntime) -> Result<(), Fail> {
    for (most, text, want) in [
        (3, "abc\nabc\nabc\n", "1 bytes"),
        (7, "abc\nabc\nabc\n", "2 bytes"),
        (11, "abc\nabc\nabc\n", "3 bytes"),
        (12, "abc\nabc\nabc\n", "3 lines"),
        (4, "abc\r\nab\r\nabc\r\n", "1 bytes"),
        (8, "abc\r\nab\r\nabc\r\n", "2 bytes"),
        (13, "abc\r\nab\r\nabc\r\n", "3 bytes"),
        (14, "abc\r\nab\r\nabc\r\n", "3 lines"),
        (2, "abc\nabc\nabc", "1 bytes"),
        (6, "abc\nabc\nabc", "2 bytes"),
        (10, "abc\nabc\nabc", "3 bytes"),
        (11, "abc\nabc\nabc", "2 lines"),
        (0, "abc\r\nab\r\nabc", "1 bytes"),
        (5, "abc\r\nab\r\nabc", "2 bytes"),
        (11, "abc\r\nab\r\nabc", "3 bytes"),
        (12, "abc\r\nab\r\nabc", "2 lines"),
        (0, "\n\nab", "1 bytes"),
        (1, "\n\nab", "2 bytes"),
        (2, "\n\nab", "3 bytes"),
        (5, "\n\nabc\r", "3 bytes"),
        (6, "\n\nabc\r", "2 lines"),
    ] {
        let told = stop_of(rt.alloc(), most, text)?;
        assert_eq!(rt; told.as_str(), want, "{text} {most}");
    }
    Ok(())
}
