//! A reader of a schedule, which takes it in pieces.

ghost use Rattle.std.specs.Prelude.{◌≡◌, None, length, IfOk};
ghost use Rattle.std.specs.Str.Lines.{strip_carriage_return};
ghost use Rattle.ecf_events.specs.Stream.{saying_of};
ghost use Rattle.ecf_stream.specs.LineState.{opened};
ghost use Rattle.ecf_schedule.specs.Reading.{first_state, stop_at, HasEnded, HasSaid, HasStopped, IsReading, Steps, Takes};

use crate::line::read_line;
use ecf_core::event::Event;
use ecf_lang::limits::{MAX_LINE_BYTES, MAX_SCHEDULE_BYTES};
use ecf_lang::receipt::{Stop, StopCause};
use ecf_stream::laws::lines_are_cut;
use ecf_stream::{Fed, LineReader};
use std::alloc::{AllocError, Global};
use std::marker::Model;

/// A reader of a schedule: the line at hand, and the events so far.
#[derive(Debug, Drop)]
pub struct EventReader {
    lines: LineReader,
    events: Vec<Event>,
}

impl Model for EventReader {
    ghost use Rattle.ecf_schedule.specs.Reading.{EventState};

    ghost Value = { EventState };

    ghost view = { λ r. record { lines = r.lines; events = r.events.items } };
}

/// What part of a piece was taken.
#[derive(Clone, Copy, Debug, PartialEq, Eq)]
pub enum Step {
    /// All of it, and the line at hand goes on.
    More,
    /// So many bytes of it, up to the LF of a line.
    Line { taken: usize },
    /// What led to this stop.
    Stop(Stop),
}

impl EventReader {
    /// A reader before the first byte.
    pub fn new(alloc: Global) -> Result<EventReader, AllocError>
        ensures first { IfOk result (λ reader. reader ≡ first_state) }
        ensures reading { IfOk result IsReading }
    {
        Ok(EventReader {
            lines: LineReader::new(alloc, MAX_LINE_BYTES, MAX_SCHEDULE_BYTES as u64)?,
            events: Vec::new(alloc),
        })
    }

    /// The events so far.
    pub fn into_events(self) -> Vec<Event>
        ensures { result.items ≡ self.events }
    {
        self.events
    }

    /// Takes the next piece, up to its end or to a stop.
    pub fn feed(&mut self, piece: &[u8]) -> Result<Option<Stop>, AllocError>
        requires { IsReading self.old }
        ensures { IfOk result (λ stop. Takes stop self.old self.new piece.now) }
    {
        let mut rest = piece;
        'lines: loop {
            match self.step(rest)? {
                Step::More => return Ok(None),
                Step::Line { taken } => rest = &rest[taken..],
                Step::Stop(stop) => return Ok(Some(stop)),
            }
        }
    }

    /// Ends where no more bytes come; the last line may be a stop.
    pub fn end(&mut self) -> Result<Option<Stop>, AllocError>
        requires { IsReading self.old }
        ensures { IfOk result (λ stop. HasEnded stop self.old self.new) }
    {
        let _ = self.lines.end();
        match self.say()? {
            Some(cause) => Ok(Some(self.stop_at(cause))),
            None => Ok(None),
        }
    }

    /// Stops where a read failed.
    pub fn fail(&mut self) -> Stop
        requires { IsReading self.old }
        ensures { HasStopped result self.old self.new }
    {
        let _ = self.lines.end();
        self.stop_at(StopCause::Read)
    }

    // Takes a piece up to the end of a line.
    fn step(&mut self, piece: &[u8]) -> Result<Step, AllocError>
        requires { IsReading self.old }
        ensures { IfOk result (λ step. Steps step self.old self.new piece.now) }
    {
        lines_are_cut();
        match self.lines.feed(piece) {
            Fed::More => Ok(Step::More),
            Fed::Line { taken } => match self.say()? {
                Some(cause) => Ok(Step::Stop(self.stop_at(cause))),
                None => Ok(Step::Line { taken }),
            },
            Fed::Long { .. } => Ok(Step::Stop(self.stop_at(StopCause::Long))),
            Fed::Bytes { .. } => Ok(Step::Stop(self.stop_at(StopCause::Bytes))),
        }
    }

    // Keeps what the line at hand says, or tells why it stops the reading.
    fn say(&mut self) -> Result<Option<StopCause>, AllocError>
        ensures { IfOk result (λ cause.
            HasSaid cause (saying_of (length self.old.events) (strip_carriage_return self.old.lines.line)) self.old self.new) }
    {
        match read_line(self.events.len(), self.lines.line()) {
            Ok(None) => Ok(None),
            Ok(Some(event)) => {
                self.events.push(event)?;
                Ok(None)
            }
            Err(cause) => Ok(Some(cause)),
        }
    }

    // A stop at the line at hand.
    fn stop_at(&self, cause: StopCause) -> Stop
        ensures { result ≡ stop_at self.now cause }
    {
        Stop {
            line: self.lines.number(),
            cause,
        }
    }
}
