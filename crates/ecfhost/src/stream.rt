//! Real streams as a source and as sinks. What they hold is told to nobody; faults are counted. No clause knows what the
//! system answers; each call says that it made one call of the system, and what became of its answer.

ghost use Rattle.std.specs.Prelude.{◌≡◌, ℕ, ◌≤◌, ◌<◌, List, None, Result, IfOk, length};
ghost use Rattle.std.specs.declared.io.Error.{Error};
ghost use Rattle.std.specs.Io.KnownBytes.{ReadConsumes, WriteAppends};
ghost use Rattle.ecf_edge.specs.Source.{faults_after_read};
ghost use Rattle.ecf_edge.specs.Sink.{faults_after_write};
ghost use Rattle.ecfhost.specs.Stream.{fresh_stream, IsOneRead, IsOneWrite};

use ecf_edge::{Failed, Sink, Source, WriteFault, count_up};
use std::io::{self, Read, Write};
use std::marker::Model;

/// What is read call by call.
pub trait Reader {
    /// What may come of one read: the reader before and after it, its answer, and the buffer after it.
    ghost reads: { Self → Self → Result ℕ Error → List ℕ → Type 0 };

    /// Reads once, into the front of `buf`, and returns how many bytes came.
    fn read_once(&mut self, buf: &mut [u8]) -> io::Result<usize>
        ensures bound { IfOk result (λ count. count ≤ length buf.new) }
        ensures once { reads self.old self.new result buf.new };
}

impl<R: Read> Reader for R {
    ghost reads = { λ before after answer buffer. ReadConsumes (R.remaining before) (R.remaining after) answer buffer };

    fn read_once(&mut self, buf: &mut [u8]) -> io::Result<usize> {
        self.read(buf)
    }
}

/// A stream that is read, such as standard input.
#[derive(Drop)]
pub struct Input<R> {
    reader: R,
    faults: u64,
}

impl<R> Model for Input<R> {
    ghost use Rattle.ecfhost.specs.Stream.{Stream};

    ghost Value = { Stream R };

    ghost view = { λ s. record { inner = s.reader; faults = s.faults } };
}

impl<R: Reader> Input<R> {
    /// A stream of which nothing was read yet.
    pub fn new(reader: R) -> Self
        ensures { result ≡ fresh_stream reader }
    {
        Input { reader, faults: 0 }
    }
}

impl<R: Reader> Source for Input<R> {
    ghost left = { λ _. None };

    ghost faults = { λ s. s.faults };

    fn read(&mut self, buf: &mut [u8]) -> Result<usize, Failed>
        ensures once { IsOneRead (λ answer. R.reads self.old.inner self.new.inner answer buf.new) result }

        ensures bound { IfOk result (λ n. n ≤ length buf.new) }
        ensures counted { self.new.faults ≡ faults_after_read self.old.faults result }
    {
        match self.reader.read_once(buf) {
            Ok(count) => Ok(count),
            Err(_) => {
                count_up(&mut self.faults);
                Err(Failed)
            }
        }
    }
}

/// What is written call by call.
pub trait Writer {
    /// What may come of one write: the writer before and after it, its answer, and the piece that was to be written.
    ghost writes: { Self → Self → Result ℕ Error → List ℕ → Type 0 };

    /// Writes once, from the front of `piece`, and returns how many bytes were taken.
    fn write_once(&mut self, piece: &[u8]) -> io::Result<usize>
        ensures bound { IfOk result (λ count. count ≤ length piece.now) }
        ensures once { writes self.old self.new result piece.now };
}

impl<W: Write> Writer for W {
    ghost writes = { λ before after answer piece. WriteAppends (W.contents before) (W.contents after) answer piece };

    fn write_once(&mut self, piece: &[u8]) -> io::Result<usize> {
        self.write(piece)
    }
}

/// A stream that is written, such as standard output.
#[derive(Drop)]
pub struct Output<W> {
    writer: W,
    faults: u64,
}

impl<W> Model for Output<W> {
    ghost use Rattle.ecfhost.specs.Stream.{Stream};

    ghost Value = { Stream W };

    ghost view = { λ s. record { inner = s.writer; faults = s.faults } };
}

impl<W: Writer> Output<W> {
    /// A stream on which nothing was written yet.
    pub fn new(writer: W) -> Self
        ensures { result ≡ fresh_stream writer }
    {
        Output { writer, faults: 0 }
    }
}

impl<W: Writer> Sink for Output<W> {
    ghost held = { λ _. None };

    ghost faults = { λ s. s.faults };

    fn write(&mut self, piece: &[u8]) -> Result<usize, WriteFault>
        ensures once { IsOneWrite (λ answer. W.writes self.old.inner self.new.inner answer piece.now) piece.now result }

        ensures bound { IfOk result (λ n. n ≤ length piece.now) }
        ensures progress { IfOk result (λ n. 0 < length piece.now → 0 < n) }
        ensures counted { self.new.faults ≡ faults_after_write self.old.faults result }
    {
        match self.writer.write_once(piece) {
            Ok(count) if count > 0 || piece.is_empty() => Ok(count),
            _ => {
                count_up(&mut self.faults);
                Err(WriteFault::Failed)
            }
        }
    }
}
