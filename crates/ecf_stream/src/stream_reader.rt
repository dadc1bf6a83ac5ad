//! Reads a stream as transactions, so many at a time.

ghost use Rattle.std.specs.Prelude.{◌≡◌, ℕ, ◌+◌, ◌<◌, ◌≤◌, List, [], ◌++◌, true, false, nat_lt, not, length, map, Some, None, IsSome, IfOk, OnOk, OnErr, IsOk, IsErr, All};
ghost use Rattle.std.specs.Arc.{arc_value};
ghost use Rattle.ecf_edge.specs.Source.{Gave, GaveSome, IsAtEnd, faults_after_read};
ghost use Rattle.ecf_lang.specs.Fits.{Fits};
ghost use Rattle.ecf_lines.specs.Line.{IsNumbered};
ghost use Rattle.ecf_lines.specs.Stream.{said_first, txs_with};
ghost use Rattle.ecf_stream.specs.Lookup.{Finds};
ghost use Rattle.ecf_stream.specs.LineState.{opened, answer_to};
ghost use Rattle.ecf_stream.specs.Saying.{SayingFits};
ghost use Rattle.ecf_stream.specs.StreamState.{first_state, held_of, place_of, stop_at, state_behind, state_fed, stopped_at, is_reading, lines_to_come, rest_at, reach_of, left_at, faults_at, Reads, with_part, HasNext, HasSaid, is_said, takes_out, NoFault, IsPart, IsEnded, IsFine, IsSound};

use crate::line_reader::{Fed, LineReader};
use crate::lookup::Lookup;
use crate::saying::read_line;
use ecf_edge::{Failed, Source};
use ecf_lang::limits::{MAX_LINE_BYTES, MAX_STREAM_BYTES, MAX_TRANSACTIONS};
use ecf_lang::receipt::{Stop, StopCause};
use ecf_lang::tx::TxRef;
use ecf_lang::typed::Typed;
use ecf_lines::saying::Saying;
use std::alloc::{AllocError, Global};
use std::marker::Model;
use std::sync::Arc;

/// How many bytes each read of a stream asks for.
pub const READ_BYTES: usize = 65_536;

/// A part of a stream.
#[derive(Debug, Drop)]
pub struct Part {
    /// The transactions that were read, in their order.
    pub txs: Vec<TxRef>,
    /// Whether the end of the stream or a stop was met.
    pub ended: bool,
    /// Where and why reading stopped before the end, if it did.
    pub stop: Option<Stop>,
    /// The watch that a control line takes out, where one ended the part.
    pub off: Option<u16>,
}

/// How far a reader has come.
#[derive(Clone, Copy, Debug, PartialEq, Eq)]
pub enum Stage {
    Reading,
    /// The end was met, or this stop.
    Ended(Option<Stop>),
    OutOfMemory,
}

/// A reader of a stream of transactions.
#[derive(Debug, Drop)]
pub struct StreamReader {
    lines: LineReader,
    buffer: Vec<u8>,
    from: usize,
    to: usize,
    controls: bool,
    txs: usize,
    stage: Stage,
}

impl Model for StreamReader {
    ghost use Rattle.std.specs.Prelude.{◌≡◌, ◌≤◌, length};
    ghost use Rattle.ecf_stream.specs.declared.stream_reader.TheConstants.{READ_BYTES};
    ghost use Rattle.ecf_stream.specs.StreamState.{StreamState, IsSound};

    ghost Value = { StreamState };

    ghost use Rattle.ecf_stream.specs.StreamReader.{stream_state, HasRest};

    ghost view = { stream_state };

    ghost invariant = { λ r. IsSound (stream_state r) × HasRest r };
}

/// How far a call came.
#[derive(Clone, Copy, Debug, PartialEq, Eq)]
pub enum Reach {
    /// Reads may go on.
    Open,
    /// The end of the stream was met.
    AtEnd,
    /// A read failed.
    Failed,
}

/// What comes next in a stream.
#[derive(Clone, Copy, Debug, PartialEq, Eq)]
pub enum Next {
    /// A line that an LF ended.
    Line,
    /// The end; what stands behind the last LF is the line at hand.
    Last,
    /// A stop.
    Stop,
}

impl StreamReader {
    /// A reader of a stream without control lines.
    pub fn new(alloc: Global) -> Result<StreamReader, AllocError>
        ensures { IfOk result (λ reader. reader ≡ first_state false 0) }
    {
        StreamReader::reading(alloc, false, 0)
    }

    /// A reader of a stream with control lines, where there were `have` transactions before.
    pub fn with_controls(alloc: Global, have: u32) -> Result<StreamReader, AllocError>
        requires { have ≤ MAX_TRANSACTIONS }
        ensures { IfOk result (λ reader. reader ≡ first_state true have) }
    {
        StreamReader::reading(alloc, true, have as usize)
    }

    /// The next transactions of the stream, `most` at most. Whether a part is the last is known once a read came to the
    /// end. After the last one each call answers that the stream has ended, and reads nothing. After want of memory bytes
    /// may have been read, they are lost, and each call is refused.
    pub fn round<S: Source>(
        &mut self,
        alloc: Global,
        typed: &Typed,
        source: &mut S,
        most: usize,
    ) -> Result<Part, AllocError>
        requires numbered { IsNumbered typed.now }
        requires some { 1 ≤ most }

        // Whatever comes of the stream behind what was read, what the part has and what later parts are to give is what was to be given.
        ensures reads { IfOk result (λ part.
            Reads typed.now self.old self.new (S.left source.old) (S.left source.new) (S.faults source.old) (S.faults source.new)
            (with_part (map arc_value part.txs.items) self.old.txs part.off) (not part.ended)) }
        ensures part { IfOk result (λ part. IsPart most (length part.txs.items) part.ended part.stop part.off self.new.stage) }
        ensures fits { IfOk result (λ part. All (Fits typed.now) (map arc_value part.txs.items)) }
        ensures controls { OnOk result (self.new.controls ≡ self.old.controls) }
        ensures no_off { self.old.controls ≡ false → IfOk result (λ part. part.off ≡ None) }
        ensures counts { IfOk result (λ part. self.new.txs ≡ self.old.txs + length part.txs.items) }

        // What was read and not dealt with is at most what one read gives, and a line.
        ensures little { length (held_of self.new) ≤ READ_BYTES + MAX_LINE_BYTES }

        // What was dealt with is within the limits of a stream.
        ensures within { (place_of self.new).bytes ≤ MAX_STREAM_BYTES }
        ensures few { self.new.txs ≤ MAX_TRANSACTIONS }

        // The source was read to its end where there is no stop, and to a failed read exactly where the stop is `read`.
        ensures end { self.old.stage ≡ Stage.Reading → OnOk result (left_at (reach_of self.new) (S.left source.new)) }
        ensures counted { self.old.stage ≡ Stage.Reading → OnOk result (S.faults source.new ≡ faults_at (reach_of self.new) (S.faults source.old)) }

        ensures over { IsEnded self.old.stage → IsOk result × (self.new ≡ self.old) × (source.new ≡ source.old) }
        ensures none_more { IsEnded self.old.stage → IfOk result (λ part. (part.txs.items ≡ []) × (part.ended ≡ true)) }
        ensures lost { OnErr result (self.new.stage ≡ Stage.OutOfMemory) }
        ensures lost_bytes { OnErr result (GaveSome (S.left source.old) (S.left source.new)) }
        ensures lost_no_fault { OnErr result (S.faults source.new ≡ S.faults source.old) }
        ensures refuses { self.old.stage ≡ Stage.OutOfMemory → IsErr result × (source.new ≡ source.old) }
    {
        match self.stage {
            Stage::Reading => {
                let part = self.read_part(alloc, typed, source, most);
                if part.is_err() {
                    self.stage = Stage::OutOfMemory;
                }
                part
            }
            Stage::Ended(stop) => Ok(Part {
                txs: Vec::new(alloc),
                ended: true,
                stop,
                off: None,
            }),
            Stage::OutOfMemory => Err(AllocError),
        }
    }

    fn reading(alloc: Global, controls: bool, have: usize) -> Result<StreamReader, AllocError>
        requires { have ≤ MAX_TRANSACTIONS }
        ensures { IfOk result (λ reader. reader ≡ first_state controls have) }
    {
        let lines = LineReader::new(alloc, MAX_LINE_BYTES, MAX_STREAM_BYTES as u64)?;
        let buffer = vec![in alloc; 0; READ_BYTES]?;
        Ok(StreamReader {
            lines,
            buffer,
            from: 0,
            to: 0,
            controls,
            txs: have,
            stage: Stage::Reading,
        })
    }

    fn is_reading(&self) -> bool
        ensures answer { result ≡ is_reading self.now.stage }
        ensures sound { IsSound self.now }
    {
        matches!(self.stage, Stage::Reading)
    }

    // Reads transactions up to so many, to a control line, or to the end or a stop.
    fn read_part<S: Source>(
        &mut self,
        alloc: Global,
        typed: &Typed,
        source: &mut S,
        most: usize,
    ) -> Result<Part, AllocError>
        requires numbered { IsNumbered typed.now }
        requires some { 1 ≤ most }
        requires reading { self.old.stage ≡ Stage.Reading }
        ensures reads { IfOk result (λ part.
            Reads typed.now self.old self.new (S.left source.old) (S.left source.new) (S.faults source.old) (S.faults source.new)
            (with_part (map arc_value part.txs.items) self.old.txs part.off) (not part.ended)) }
        ensures part { IfOk result (λ part. IsPart most (length part.txs.items) part.ended part.stop part.off self.new.stage) }
        ensures fits { IfOk result (λ part. All (Fits typed.now) (map arc_value part.txs.items)) }
        ensures controls { OnOk result (self.new.controls ≡ self.old.controls) }
        ensures no_off { self.old.controls ≡ false → IfOk result (λ part. part.off ≡ None) }
        ensures counts { IfOk result (λ part. self.new.txs ≡ self.old.txs + length part.txs.items) }
        ensures end { OnOk result (left_at (reach_of self.new) (S.left source.new)) }
        ensures counted { OnOk result (S.faults source.new ≡ faults_at (reach_of self.new) (S.faults source.old)) }
        ensures lost_bytes { OnErr result (GaveSome (S.left source.old) (S.left source.new)) }
        ensures lost_no_fault { OnErr result (S.faults source.new ≡ S.faults source.old) }
    {
        let lookup = Lookup::new(alloc, typed)?;
        let mut txs = Vec::new(alloc);
        let mut off = None;
        'lines: while txs.len() < most && off.is_none() && self.is_reading() {
            match self.next_saying(alloc, typed, &lookup, source)? {
                Saying::Nothing => {}
                Saying::Asks(tx) => txs.push(Arc::new(alloc, tx)?)?,
                Saying::TakesOut(watch) => off = Some(watch),
            }
        }
        Ok(self.part(txs, off))
    }

    // The part of these transactions, by how far the stream was read.
    fn part(&self, txs: Vec<TxRef>, off: Option<u16>) -> Part
        requires { IsFine self.now.stage }
        ensures same { (result.txs ≡ txs) × (result.off ≡ off) }
        ensures ended { result.ended ≡ true → self.now.stage ≡ Stage.Ended result.stop }
        ensures no_off { result.ended ≡ true → off ≡ None }
        ensures no_stop { result.ended ≡ false → result.stop ≡ None }
        ensures reading { result.ended ≡ false → off ≡ None → self.now.stage ≡ Stage.Reading }
    {
        match self.stage {
            Stage::Ended(stop) if off.is_none() => Part {
                txs,
                ended: true,
                stop,
                off,
            },
            _ => Part {
                txs,
                ended: false,
                stop: None,
                off,
            },
        }
    }

    // What the next line says; nothing also where the stream comes to a stop.
    fn next_saying<S: Source>(
        &mut self,
        alloc: Global,
        typed: &Typed,
        lookup: &Lookup,
        source: &mut S,
    ) -> Result<Saying, AllocError>
        requires numbered { IsNumbered typed.now }
        requires found { Finds typed.now lookup.now }
        requires sound { IsSound self.old }
        requires reading { self.old.stage ≡ Stage.Reading }
        ensures reads { IfOk result (λ saying.
            Reads typed.now self.old self.new (S.left source.old) (S.left source.new) (S.faults source.old) (S.faults source.new)
            (said_first saying self.old.txs) (is_said saying)) }
        ensures counts { IfOk result (λ saying. self.new.txs ≡ txs_with saying self.old.txs) }
        ensures no_fault { IfOk result (λ saying. NoFault saying (S.faults source.old) (S.faults source.new)) }
        ensures controls { OnOk result (self.new.controls ≡ self.old.controls) }
        ensures no_control { self.old.controls ≡ false → IfOk result (λ saying. takes_out saying ≡ false) }
        ensures fine { OnOk result (IsFine self.new.stage) }
        ensures progress { OnOk result (lines_to_come self.new < lines_to_come self.old) }
        ensures fits { IfOk result (SayingFits typed.now) }
        ensures lost_bytes { OnErr result (GaveSome (S.left source.old) (S.left source.new)) }
        ensures lost_no_fault { OnErr result (S.faults source.new ≡ S.faults source.old) }
    {
        match self.next_line(source) {
            Next::Line => self.say(alloc, typed, lookup, false),
            Next::Last => self.say(alloc, typed, lookup, true),
            Next::Stop => Ok(Saying::Nothing),
        }
    }

    // What the line at hand says; nothing also where it stops the reading.
    fn say(
        &mut self,
        alloc: Global,
        typed: &Typed,
        lookup: &Lookup,
        is_last: bool,
    ) -> Result<Saying, AllocError>
        requires numbered { IsNumbered typed.now }
        requires found { Finds typed.now lookup.now }
        ensures said { IfOk result (HasSaid typed.now self.old self.new is_last) }
        ensures fits { IfOk result (SayingFits typed.now) }
    {
        match read_line(
            alloc,
            typed,
            lookup,
            self.controls,
            self.txs,
            self.lines.line(),
        )? {
            Ok(saying) => {
                self.go_on(&saying, is_last);
                Ok(saying)
            }
            Err(cause) => {
                self.stop(cause);
                Ok(Saying::Nothing)
            }
        }
    }

    // Counts what a line said, behind which the stream may have ended.
    fn go_on(&mut self, saying: &Saying, is_last: bool)
        requires { txs_with saying.now self.old.txs ≤ MAX_TRANSACTIONS }
        ensures { self.new ≡ state_behind self.old saying.now is_last }
    {
        if let Saying::Asks(_) = saying {
            self.txs += 1;
        }
        if is_last {
            self.stage = Stage::Ended(None);
        }
    }

    // Stops at the line at hand.
    fn stop(&mut self, cause: StopCause)
        ensures { self.new ≡ stopped_at self.old self.old.lines cause }
    {
        self.stage = stage_at(&self.lines, cause);
    }

    // Reads to the end of the next line, to the end of the stream or to a stop.
    fn next_line<S: Source>(&mut self, source: &mut S) -> Next
        requires { self.old.stage ≡ Stage.Reading }
        ensures { HasNext result self.old self.new (S.left source.old) (S.left source.new) (S.faults source.old) (S.faults source.new) }
    {
        'pieces: loop {
            match self.fill(source) {
                Reach::Open => match self.feed_rest() {
                    Fed::More => {}
                    Fed::Line { .. } => return Next::Line,
                    _ => return Next::Stop,
                },
                Reach::AtEnd => {
                    self.begin_last();
                    return Next::Last;
                }
                Reach::Failed => {
                    self.begin_last();
                    self.stop(StopCause::Read);
                    return Next::Stop;
                }
            }
        }
    }

    // Has some bytes to look at, if more come.
    fn fill<S: Source>(&mut self, source: &mut S) -> Reach
        ensures state { self.new ≡ record self.old { rest = self.new.rest } }
        ensures gave { (piece : List ℕ) × Gave (S.left source.old) piece (S.left source.new) × (self.new.rest ≡ self.old.rest ++ piece) }
        ensures rest { rest_at result self.new.rest }
        ensures end { left_at result (S.left source.new) }
        ensures counted { S.faults source.new ≡ faults_at result (S.faults source.old) }
        ensures sound { IsSound self.new }
    {
        if self.has_rest() {
            return Reach::Open;
        }
        match self.refill(source) {
            Ok(0) => Reach::AtEnd,
            Ok(_) => Reach::Open,
            Err(Failed) => Reach::Failed,
        }
    }

    // Whether some of what was read wasn't looked at yet.
    fn has_rest(&self) -> bool
        ensures answer { result ≡ nat_lt 0 (length self.now.rest) }
        ensures sound { IsSound self.now }
    {
        self.from < self.to
    }

    // Makes what came of the last line the line at hand.
    fn begin_last(&mut self)
        ensures { self.new ≡ record self.old { lines = opened self.old.lines } }
    {
        let _ = self.lines.end();
    }

    // Reads once into the buffer, nothing of which is left; no bytes are the end of the stream.
    fn refill<S: Source>(&mut self, source: &mut S) -> Result<usize, Failed>
        requires { self.old.rest ≡ [] }
        ensures state { self.new ≡ record self.old { rest = self.new.rest } }
        ensures count { IfOk result (λ n. length self.new.rest ≡ n) }
        ensures gave { IfOk result (λ n. Gave (S.left source.old) self.new.rest (S.left source.new)) }
        ensures end { IfOk result (λ n. n ≡ 0 → IsAtEnd (S.left source.new)) }
        ensures none { OnErr result (self.new ≡ self.old) }
        ensures fault_keeps { OnErr result (S.left source.new ≡ S.left source.old) }
        ensures counted { S.faults source.new ≡ faults_after_read (S.faults source.old) result }
        ensures sound { IsSound self.new }
    {
        self.from = 0;
        self.to = 0;
        let count = source.read(self.buffer.as_mut_slice())?;
        self.to = count;
        Ok(count)
    }

    // Feeds what is left of the buffer to the line at hand. Where that passes a limit, reading stops, and all of it is left.
    fn feed_rest(&mut self) -> Fed
        requires reading { self.old.stage ≡ Stage.Reading }
        ensures answer { result ≡ answer_to self.old.lines self.old.rest }
        ensures after { self.new ≡ state_fed self.old result }
        ensures sound { IsSound self.new }
    {
        let fed = self.lines.feed(&self.buffer[self.from..self.to]);
        match fed {
            Fed::More => self.from = self.to,
            Fed::Line { taken } => self.from += taken,
            Fed::Long { .. } => self.stage = stage_at(&self.lines, StopCause::Long),
            Fed::Bytes { .. } => self.stage = stage_at(&self.lines, StopCause::Bytes),
        }
        fed
    }
}

// The stage of a reader that stops at the line at hand.
fn stage_at(lines: &LineReader, cause: StopCause) -> Stage
    ensures { result ≡ Stage.Ended (Some (stop_at lines.now cause)) }
{
    Stage::Ended(Some(Stop {
        line: lines.number(),
        cause,
    }))
}
