//! Traces and what is told of them as text: a step is an invocation, `r` or `w`, and a cell.

use ecf_graph::Ordered;
use ecf_lang::cell::Cell;
use ecf_lang::run::Step;
use ecf_online::Monitor;
use std::alloc::{AllocError, Global};

/// A small letter is a field of object 0, a capital one of object 1, and another sign the last field of the last object.
fn cell_of(letter: u8) -> Cell {
    let (object, field) = match letter {
        b'a'..=b'z' => (0, letter - b'a'),
        b'A'..=b'Z' => (1, letter - b'A'),
        _ => (255, 255),
    };
    Cell {
        object,
        field,
        key: 0,
    }
}

/// The step of a word such as `12rx`: invocation 12 reads x.
fn step_of(word: &str) -> Step {
    let mut inv: u16 = 0;
    let mut write = false;
    let mut letter = b'x';
    for byte in word.as_bytes() {
        match *byte {
            b'0'..=b'9' => inv = inv.wrapping_mul(10).wrapping_add(u16::from(*byte - b'0')),
            b'r' => write = false,
            b'w' => write = true,
            other => letter = other,
        }
    }
    Step {
        inv,
        write,
        cell: cell_of(letter),
        value: 0,
    }
}

/// The steps of words with a space between.
pub(crate) fn steps_of(alloc: Global, text: &str) -> Result<Vec<Step>, AllocError> {
    let mut steps = Vec::new(alloc);
    for word in text.split(' ') {
        if !word.is_empty() {
            steps.push(step_of(word))?;
        }
    }
    Ok(steps)
}

/// Adds numbers, each after a space.
pub(crate) fn push_numbers(text: &mut String, numbers: &[u16]) -> Result<(), AllocError> {
    for number in numbers {
        write!(text, " {number}")?;
    }
    Ok(())
}

/// The members in their order, and the rest behind a bar, if there is one.
pub(crate) fn push_ordered(text: &mut String, ordered: &Ordered) -> Result<(), AllocError> {
    match ordered {
        Ordered::All(placed) => push_numbers(text, placed.as_slice()),
        Ordered::Stuck { placed, rest } => {
            push_numbers(text, placed.as_slice())?;
            text.push_str(" |")?;
            push_numbers(text, rest.as_slice())
        }
    }
}

/// Feeds a trace in pieces of a size, each by one longer than the one before where they are uneven, and gives what the
/// monitor told last.
pub(crate) fn feed_all(
    monitor: &mut Monitor,
    trace: &[Step],
    size: usize,
    uneven: bool,
) -> Result<Option<u32>, AllocError> {
    let mut first = None;
    let mut left = trace;
    let mut size = size;
    for _ in 0..trace.len() {
        let cut = size.min(left.len());
        let (piece, later) = left.split_at(cut);
        first = feed(monitor, piece)?;
        left = later;
        if uneven && size < trace.len() {
            size += 1;
        }
    }
    Ok(first)
}

/// Takes steps into a monitor, where they are few.
fn feed(monitor: &mut Monitor, piece: &[Step]) -> Result<Option<u32>, AllocError> {
    if monitor.steps() <= 1_000 && piece.len() <= 1_000 {
        monitor.feed(piece)
    } else {
        Err(AllocError)
    }
}
