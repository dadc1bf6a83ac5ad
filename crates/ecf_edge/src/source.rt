//! Sources of bytes: the trait, two sources in memory, and a call that reads a source to its end.
ghost use Rattle.std.specs.Prelude.{◌≡◌, ℕ, ◌≤◌, ◌<◌, ◌+◌, List, Option, length, take, Some, IfSome, IfOk, OnErr, IsErr, MatchBool, if◌then◌else◌, ◌≢◌};
ghost use Rattle.ecf_edge.specs.Plan.{fresh_plan, next_fails};
ghost use Rattle.ecf_edge.specs.Source.{Gave, GaveSome, IsAtEnd, faults_after_read, faults_after_reading, whole_of, given, filled, after_read, after_faulty_read};

use crate::plan::FaultPlan;
use std::alloc::{AllocError, Global};
use std::marker::Model;
use thiserror::Error;

/// A read failed. Nothing more is known of it.
#[derive(Clone, Copy, Debug, PartialEq, Eq, Error)]
#[error("the read failed")]
pub struct Failed;

/// A source of bytes, read piece by piece.
pub trait Source {
    /// The bytes that later reads give, where the source tells them.
    ghost left: { Self → Option (List ℕ) };

    /// How many reads have failed.
    ghost faults: { Self → ℕ };

    /// Reads into the front of `buf` and returns how many bytes came. None for a buffer with room means the end of input.
    /// A read that fails takes nothing. What stands in the buffer behind the bytes that came is left open.
    fn read(&mut self, buf: &mut [u8]) -> Result<usize, Failed>
        ensures bound { IfOk result (λ n. n ≤ length buf.new) }
        ensures gives { IfOk result (λ n. Gave (left self.old) (take n buf.new) (left self.new)) }
        ensures end { IfOk result (λ n. n ≡ 0 → 0 < length buf.new → IsAtEnd (left self.new)) }
        ensures fault_keeps { OnErr result (left self.new ≡ left self.old) }
        ensures counted { faults self.new ≡ faults_after_read (faults self.old) result };
}

/// The most bytes that `read_all` asks of one read.
const PIECE: usize = 65_536;

/// Why `read_all` stopped reading.
#[derive(Clone, Copy, Debug, PartialEq, Eq)]
pub enum Ending {
    /// The source came to its end.
    End,
    /// More bytes came than were allowed.
    OverLimit,
    /// A read failed.
    Failed,
}

/// What `read_all` read, and why it stopped.
#[derive(Debug, Drop)]
pub struct Reading {
    /// The bytes that came, in order.
    pub bytes: Vec<u8>,
    /// Why no more were read.
    pub ending: Ending,
}

/// Why a reading hasn't all the bytes of its source.
#[derive(Clone, Copy, Debug, PartialEq, Eq, Error)]
pub enum Incomplete {
    /// More bytes came than were allowed.
    #[error("the text is too long")]
    OverLimit,
    /// A read failed.
    #[error("the read failed")]
    Failed,
}

impl Reading {
    /// The bytes of a reading that came to the end of its source, or why they aren't all.
    pub fn whole(self) -> Result<Vec<u8>, Incomplete>
        ensures { result ≡ whole_of self.ending self.bytes }
    {
        match self.ending {
            Ending::End => Ok(self.bytes),
            Ending::OverLimit => Err(Incomplete::OverLimit),
            Ending::Failed => Err(Incomplete::Failed),
        }
    }
}

/// Reads a source to its end, to one byte over `most`, or to a failed read. Each read asks for at most 65,536 bytes.
/// After a want of memory some bytes may have been read, and they are lost.
pub fn read_all<S: Source>(
    alloc: Global,
    source: &mut S,
    most: usize,
) -> Result<Reading, AllocError>
    ensures bytes { IfOk result (λ r. Gave (S.left source.old) r.bytes.items (S.left source.new)) }

    // What each ending says.
    ensures end { IfOk result (λ r. r.ending ≡ Ending.End → IsAtEnd (S.left source.new)) }
    ensures over_limit { IfOk result (λ r. r.ending ≡ Ending.OverLimit → length r.bytes.items ≡ most + 1) }
    ensures within_limit { IfOk result (λ r. r.ending ≢ Ending.OverLimit → length r.bytes.items ≤ most) }

    // What follows for a source that tells what it had.
    ensures whole { IfOk result (λ r. r.ending ≡ Ending.End → IfSome (S.left source.old) (λ all. r.bytes.items ≡ all)) }
    ensures too_many { IfOk result (λ r. r.ending ≡ Ending.OverLimit → IfSome (S.left source.old) (λ all. most < length all)) }

    ensures lost { OnErr result (GaveSome (S.left source.old) (S.left source.new)) }
    ensures counted { S.faults source.new ≡ faults_after_reading (S.faults source.old) result }
{
    let mut bytes = Vec::new(alloc);
    let mut buffer = vec![in alloc; 0; most.min(PIECE - 1) + 1]?;
    while bytes.len() <= most {
        let wanted = (most - bytes.len()).min(PIECE - 1) + 1;
        let piece = &mut buffer[..wanted];
        match source.read(piece) {
            Ok(0) => return Ok(Reading {
                bytes,
                ending: Ending::End,
            }),
            Ok(count) => bytes.extend_from_slice(&piece[..count])?,
            Err(Failed) => return Ok(Reading {
                bytes,
                ending: Ending::Failed,
            }),
        }
    }
    Ok(Reading {
        bytes,
        ending: Ending::OverLimit,
    })
}

/// A source in memory none of whose reads fails. Each gives as much as there is room for, at most `step` bytes.
#[derive(Debug, Drop)]
pub struct SureSource {
    bytes: Vec<u8>,
    at: usize,
    step: usize,
}

impl Model for SureSource {
    ghost use Rattle.std.specs.Prelude.{length, drop, ◌≤◌, ◌<◌};
    ghost use Rattle.ecf_edge.specs.Source.{StepSource};

    ghost Value = { StepSource };

    ghost view = { λ s. record { left = drop s.at s.bytes.items; step = s.step } };

    ghost invariant = { λ s. (s.at ≤ length s.bytes.items) × (0 < s.step) };
}

impl SureSource {
    /// A source of these bytes, of which a read gives at most `step`.
    pub fn new(bytes: Vec<u8>, step: usize) -> Self
        requires { 0 < step }
        ensures bytes { result.left ≡ bytes.items }
        ensures step { result.step ≡ step }
    {
        SureSource { bytes, at: 0, step }
    }

    /// The bytes that were not read yet.
    pub fn left(&self) -> &[u8]
        ensures { result.now ≡ self.now.left }
    {
        &self.bytes[self.at..]
    }

    /// Gives the next bytes into the front of `buf`, and how many.
    fn give(&mut self, buf: &mut [u8]) -> usize
        ensures count { result ≡ given self.old (length buf.old) }
        ensures buffer { buf.new ≡ filled self.old buf.old }
        ensures after { self.new ≡ after_read self.old (length buf.old) }
        ensures step { 0 < self.old.step }
    {
        let rest = &self.bytes[self.at..];
        let count = self.step.min(buf.len().min(rest.len()));
        buf[..count].copy_from_slice(&rest[..count]);
        self.at += count;
        count
    }
}

impl Source for SureSource {
    ghost left = { λ s. Some s.left };

    ghost faults = { λ _. 0 };

    fn read(&mut self, buf: &mut [u8]) -> Result<usize, Failed>
        ensures answer { result ≡ Ok (given self.old (length buf.old)) }
        ensures buffer { buf.new ≡ filled self.old buf.old }
        ensures after { self.new ≡ after_read self.old (length buf.old) }

        ensures bound { IfOk result (λ n. n ≤ length buf.new) }
        ensures gives { IfOk result (λ n. Gave (Some self.old.left) (take n buf.new) (Some self.new.left)) }
        ensures end { IfOk result (λ n. n ≡ 0 → 0 < length buf.new → IsAtEnd (Some self.new.left)) }
    {
        Ok(self.give(buf))
    }
}

/// A source in memory of whose reads some fail, as planned.
#[derive(Debug, Drop)]
pub struct MemSource {
    source: SureSource,
    plan: FaultPlan,
}

impl Model for MemSource {
    ghost use Rattle.ecf_edge.specs.Source.{FaultySource};

    ghost Value = { FaultySource };

    ghost view = { λ s. record { source = s.source; plan = s.plan } };
}

impl MemSource {
    /// A source of these bytes, of which a read gives at most `step`. The reads whose numbers, from 1, stand in `fails`
    /// fail.
    pub fn new(bytes: Vec<u8>, step: usize, fails: Vec<u64>) -> Self
        requires { 0 < step }
        ensures bytes { result.source.left ≡ bytes.items }
        ensures step { result.source.step ≡ step }
        ensures plan { result.plan ≡ fresh_plan fails.items }
    {
        MemSource {
            source: SureSource::new(bytes, step),
            plan: FaultPlan::new(fails),
        }
    }

    /// The bytes that were not read yet.
    pub fn left(&self) -> &[u8]
        ensures { result.now ≡ self.now.source.left }
    {
        self.source.left()
    }

    /// How many reads have failed. The count stands still at the greatest `u64`.
    pub fn faults(&self) -> u64
        ensures { result ≡ self.now.plan.faults }
    {
        self.plan.faults()
    }
}

impl Source for MemSource {
    ghost left = { λ s. Some s.source.left };

    ghost faults = { λ s. s.plan.faults };

    fn read(&mut self, buf: &mut [u8]) -> Result<usize, Failed>
        ensures answer { MatchBool (next_fails self.old.plan) (IsErr result) (result ≡ Ok (given self.old.source (length buf.old))) }
        ensures buffer { buf.new ≡ (if next_fails self.old.plan then buf.old else filled self.old.source buf.old) }
        ensures after { self.new ≡ after_faulty_read self.old (length buf.old) }

        ensures bound { IfOk result (λ n. n ≤ length buf.new) }
        ensures gives { IfOk result (λ n. Gave (Some self.old.source.left) (take n buf.new) (Some self.new.source.left)) }
        ensures end { IfOk result (λ n. n ≡ 0 → 0 < length buf.new → IsAtEnd (Some self.new.source.left)) }
        ensures fault_keeps { OnErr result (self.new.source.left ≡ self.old.source.left) }
        ensures counted { self.new.plan.faults ≡ faults_after_read self.old.plan.faults result }
    {
        if self.plan.call_fails() {
            return Err(Failed);
        }
        Ok(self.source.give(buf))
    }
}
