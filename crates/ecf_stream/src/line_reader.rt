//! Cuts a stream into its lines, in whatever pieces it comes.

ghost use Rattle.std.specs.Prelude.{◌≡◌, ℕ, ◌+◌, ◌-◌, ◌^◌, ◌<◌, ◌≤◌, false, List, length, position, IfOk};
ghost use Rattle.std.specs.List.{before_first};
ghost use Rattle.std.specs.Str.Lines.{strip_carriage_return};
ghost use Rattle.ecf_lines.specs.Stream.{is_lf, limit_passed};
ghost use Rattle.ecf_stream.specs.LineState.{first_line, opened, limit_passed_with, answer_by, state_by, answer_to, state_after, has_last, IsWithin};

use ecf_lang::receipt::StopCause;
use std::alloc::{AllocError, Global};
use std::marker::Model;

/// What a piece of a stream came to.
#[derive(Clone, Copy, Debug, PartialEq, Eq)]
pub enum Fed {
    /// The whole piece was taken, and the line at hand goes on.
    More,
    /// The line at hand is whole. So many bytes of the piece were taken, the LF that ended it the last of them.
    Line { taken: usize },
    /// The line at hand has more bytes than a line may have. The first one over the limit is the last of so many of the
    /// piece; none after the first such answer.
    Long { taken: usize },
    /// The stream has more bytes than it may have. The first one over the limit is the last of so many of the piece; none
    /// after the first such answer.
    Bytes { taken: usize },
}

/// A reader of lines. It has room for one line, and takes none later.
#[derive(Debug, Drop)]
pub struct LineReader {
    most_line: usize,
    most_bytes: u64,
    lines: u32,
    bytes: u64,
    line: Vec<u8>,
    is_whole: bool,
    over: Option<Fed>,
}

impl Model for LineReader {
    ghost use Rattle.std.specs.Prelude.{◌≤◌, vec_capacity};
    ghost use Rattle.ecf_stream.specs.LineState.{LineState, IsWithin};

    ghost Value = { LineState };

    ghost use Rattle.ecf_stream.specs.LineReader.{line_state};

    ghost view = { line_state };

    ghost invariant = { λ r. IsWithin (line_state r) × (r.most_line ≤ vec_capacity r.line) };
}

impl LineReader {
    /// A reader before the first byte of a stream. A line may have `most_line` bytes, its CR counted and its LF not, and
    /// the stream `most_bytes`.
    pub fn new(alloc: Global, most_line: usize, most_bytes: u64) -> Result<LineReader, AllocError>
        requires line { most_line < 2 ^ 32 - 1 }
        requires stream { most_bytes < 2 ^ 32 - 1 }
        ensures { IfOk result (λ reader. reader ≡ first_line most_line most_bytes) }
    {
        Ok(LineReader {
            most_line,
            most_bytes,
            lines: 0,
            bytes: 0,
            line: Vec::with_capacity(alloc, most_line)?,
            is_whole: false,
            over: None,
        })
    }

    /// Takes the bytes of the next piece of the stream, up to the end of a line.
    pub fn feed(&mut self, piece: &[u8]) -> Fed
        ensures answer { result ≡ answer_to self.old piece.now }
        ensures after { self.new ≡ state_after self.old piece.now }
        ensures within { IsWithin self.new }
    {
        if let Some(over) = self.over {
            return over;
        }
        self.open();
        self.take(piece)
    }

    /// The line at hand, without its LF and without the one CR before it: after `Line` the line that is whole, after a
    /// true `end` the last one.
    pub fn line(&self) -> &[u8]
        ensures { result.now ≡ strip_carriage_return self.now.line }
    {
        match self.line.as_slice() {
            [line @ .., b'\r'] => line,
            line => line,
        }
    }

    /// The number of the line at hand, from 1.
    pub fn number(&self) -> u32
        ensures { result ≡ self.now.lines + 1 }
    {
        self.lines + 1
    }

    /// Whether a last line without LF stands where the stream ends now.
    pub fn end(&mut self) -> bool
        ensures answer { result ≡ has_last self.old }
        ensures after { self.new ≡ opened self.old }
    {
        self.open();
        self.over.is_none() && !self.line.is_empty()
    }

    // Begins the next line where the one at hand is whole.
    fn open(&mut self)
        ensures after { self.new ≡ opened self.old }
    {
        if self.is_whole {
            self.lines += 1;
            self.bytes += self.line.len() as u64 + 1;
            self.line.clear();
            self.is_whole = false;
        }
    }

    // Takes a piece to a line that isn't whole.
    fn take(&mut self, piece: &[u8]) -> Fed
        requires { self.old.is_whole ≡ false }
        ensures answer { result ≡ answer_by self.old piece.now (limit_passed_with self.old piece.now) }
        ensures after { self.new ≡ state_by self.old piece.now (limit_passed_with self.old piece.now) }
        ensures within { IsWithin self.new }
    {
        let part = part_of(piece);
        let is_ended = part.len() < piece.len();
        let count = self.line.len() + part.len();
        match passed(self.most_line, self.most_bytes, self.bytes, is_ended, count) {
            Some(StopCause::Long) => {
                self.over = Some(Fed::Long { taken: 0 });
                Fed::Long {
                    taken: self.most_line + 1 - self.line.len(),
                }
            }
            Some(_) => {
                self.over = Some(Fed::Bytes { taken: 0 });
                Fed::Bytes {
                    taken: (self.most_bytes + 1 - (self.bytes + self.line.len() as u64)) as usize,
                }
            }
            None => {
                let Ok(()) = self.line.extend_from_slice(part) else {
                    unreachable!();
                };
                self.is_whole = is_ended;
                if is_ended {
                    Fed::Line {
                        taken: part.len() + 1,
                    }
                } else {
                    Fed::More
                }
            }
        }
    }
}

// The bytes of a piece before its first LF.
fn part_of(piece: &[u8]) -> &[u8]
    ensures { result.now ≡ before_first is_lf piece.now }
{
    match place_of_lf(piece) {
        Some(place) => &piece[..place],
        None => piece,
    }
}

fn place_of_lf(piece: &[u8]) -> Option<usize>
    ensures { result ≡ position is_lf piece.now }
{
    piece.iter().position(|byte| *byte == b'\n')
}

// The limit that a line of so many bytes passes, behind so many bytes of the stream.
fn passed(
    most_line: usize,
    most_bytes: u64,
    before: u64,
    is_ended: bool,
    count: usize,
) -> Option<StopCause>
    requires line { most_line < 2 ^ 32 }
    requires stream { before < 2 ^ 32 }
    requires room { count < 2 ^ 63 + 2 ^ 32 }
    ensures { (line : List ℕ) → length line ≡ count → limit_passed most_line most_bytes before is_ended line ≡ result }
{
    let lf = if is_ended { 1 } else { 0 };
    if most_line < count && before + most_line as u64 <= most_bytes {
        Some(StopCause::Long)
    } else if most_bytes < before + count as u64 + lf {
        Some(StopCause::Bytes)
    } else {
        None
    }
}
