//! Sinks of bytes: the trait, two sinks in memory, and a call that writes a whole text.
ghost use Rattle.std.specs.Prelude.{◌≡◌, ◌≢◌, ℕ, ◌≤◌, ◌<◌, ◌+◌, List, [], Option, length, take, Some, IfOk, OnOk, OnErr, IsErrOf, MatchBool, MatchResult, if◌then◌else◌};
ghost use Rattle.ecf_edge.specs.Plan.{fresh_plan, next_fails, after_call};
ghost use Rattle.ecf_edge.specs.Sink.{Grew, GrewByPrefix, faults_after_write, taken, with_more};
ghost use Rattle.ecf_edge.specs.declared.sink.WriteFault.TheVariants.{NoMemory};

use crate::plan::FaultPlan;
use std::alloc::{AllocError, Global};
use std::marker::Model;
use thiserror::Error;

/// Why a write took nothing.
#[derive(Clone, Copy, Debug, PartialEq, Eq, Error)]
pub enum WriteFault {
    /// The write failed. Nothing more is known of it.
    #[error("the write failed")]
    Failed,
    /// There was no memory for what was to be held.
    #[error("out of memory")]
    NoMemory,
}

impl From<AllocError> for WriteFault {
    ghost from_gives = { λ _ fault. fault ≡ NoMemory };

    fn from(_: AllocError) -> Self {
        WriteFault::NoMemory
    }
}

/// A sink of bytes, written piece by piece.
pub trait Sink {
    /// The bytes that were written, where the sink tells them.
    ghost held: { Self → Option (List ℕ) };

    /// How many writes have failed.
    ghost faults: { Self → ℕ };

    /// Writes from the front of `piece` and returns how many bytes were taken, at least one of a piece that has any.
    /// After a fault nothing was taken. A want of memory is told without a count.
    fn write(&mut self, piece: &[u8]) -> Result<usize, WriteFault>
        ensures bound { IfOk result (λ n. n ≤ length piece.now) }
        ensures progress { IfOk result (λ n. 0 < length piece.now → 0 < n) }
        ensures appends { IfOk result (λ n. Grew (held self.old) (take n piece.now) (held self.new)) }
        ensures fault_keeps { OnErr result (held self.new ≡ held self.old) }
        ensures counted { faults self.new ≡ faults_after_write (faults self.old) result };
}

/// Writes all of `bytes`, in as many writes as it takes, or a first part of them up to the first fault. It takes no memory
/// of its own, so `NoMemory` comes only from a write that answered it.
pub fn put_all<K: Sink>(sink: &mut K, bytes: &[u8]) -> Result<(), WriteFault>
    ensures all { OnOk result (Grew (K.held sink.old) bytes.now (K.held sink.new)) }
    ensures prefix { GrewByPrefix (K.held sink.old) bytes.now (K.held sink.new) }
    ensures counted { K.faults sink.new ≡ faults_after_write (K.faults sink.old) result }
{
    let mut written = 0;
    while written < bytes.len() {
        written += sink.write(&bytes[written..])?;
    }
    Ok(())
}

/// A sink in memory none of whose writes fails. Each takes at most `step` bytes.
#[derive(Debug, Drop)]
pub struct SureSink {
    bytes: Vec<u8>,
    step: usize,
}

impl Model for SureSink {
    ghost use Rattle.std.specs.Prelude.{◌<◌};
    ghost use Rattle.ecf_edge.specs.Sink.{StepSink};

    ghost Value = { StepSink };

    ghost view = { λ s. record { held = s.bytes.items; step = s.step } };

    ghost invariant = { λ s. 0 < s.step };
}

impl SureSink {
    /// A sink that holds nothing yet, of which a write takes at most `step` bytes.
    pub fn new(alloc: Global, step: usize) -> Self
        requires { 0 < step }
        ensures held { result.held ≡ [] }
        ensures step { result.step ≡ step }
    {
        SureSink {
            bytes: Vec::new(alloc),
            step,
        }
    }

    /// The bytes that were written.
    pub fn held(&self) -> &[u8]
        ensures { result.now ≡ self.now.held }
    {
        &self.bytes
    }
}

impl Sink for SureSink {
    ghost held = { λ s. Some s.held };

    ghost faults = { λ _. 0 };

    fn write(&mut self, piece: &[u8]) -> Result<usize, WriteFault>
        ensures answer { MatchResult result (λ n. n ≡ taken self.old piece.now) (λ fault. fault ≡ NoMemory) }
        ensures after { IfOk result (λ n. self.new ≡ with_more self.old (take n piece.now)) }
        ensures fault_after { OnErr result (self.new ≡ self.old) }

        ensures bound { IfOk result (λ n. n ≤ length piece.now) }
        ensures progress { IfOk result (λ n. 0 < length piece.now → 0 < n) }
        ensures appends { IfOk result (λ n. Grew (Some self.old.held) (take n piece.now) (Some self.new.held)) }
        ensures never_failed { result ≢ Err WriteFault.Failed }
        ensures fault_keeps { OnErr result (self.new.held ≡ self.old.held) }
    {
        let count = self.step.min(piece.len());
        self.bytes.extend_from_slice(&piece[..count])?;
        Ok(count)
    }
}

/// A sink in memory of whose writes some fail, as planned.
#[derive(Debug, Drop)]
pub struct MemSink {
    sink: SureSink,
    plan: FaultPlan,
}

impl Model for MemSink {
    ghost use Rattle.ecf_edge.specs.Sink.{FaultySink};

    ghost Value = { FaultySink };

    ghost view = { λ s. record { sink = s.sink; plan = s.plan } };
}

impl MemSink {
    /// A sink that holds nothing yet, of which a write takes at most `step` bytes. The writes whose numbers, from 1, stand
    /// in `fails` fail.
    pub fn new(alloc: Global, step: usize, fails: Vec<u64>) -> Self
        requires { 0 < step }
        ensures held { result.sink.held ≡ [] }
        ensures step { result.sink.step ≡ step }
        ensures plan { result.plan ≡ fresh_plan fails.items }
    {
        MemSink {
            sink: SureSink::new(alloc, step),
            plan: FaultPlan::new(fails),
        }
    }

    /// The bytes that were written.
    pub fn held(&self) -> &[u8]
        ensures { result.now ≡ self.now.sink.held }
    {
        self.sink.held()
    }

    /// How many writes have failed. The count stands still at the greatest `u64`.
    pub fn faults(&self) -> u64
        ensures { result ≡ self.now.plan.faults }
    {
        self.plan.faults()
    }
}

impl Sink for MemSink {
    ghost held = { λ s. Some s.sink.held };

    ghost faults = { λ s. s.plan.faults };

    fn write(&mut self, piece: &[u8]) -> Result<usize, WriteFault>
        ensures answer { MatchBool (next_fails self.old.plan) (result ≡ Err WriteFault.Failed)
            (MatchResult result (λ n. n ≡ taken self.old.sink piece.now) (λ fault. fault ≡ NoMemory)) }
        ensures after { IfOk result (λ n. self.new.sink ≡ with_more self.old.sink (take n piece.now)) }
        ensures fault_after { OnErr result (self.new.sink ≡ self.old.sink) }
        ensures plan { self.new.plan ≡ after_call self.old.plan }

        ensures bound { IfOk result (λ n. n ≤ length piece.now) }
        ensures progress { IfOk result (λ n. 0 < length piece.now → 0 < n) }
        ensures appends { IfOk result (λ n. Grew (Some self.old.sink.held) (take n piece.now) (Some self.new.sink.held)) }
        ensures fault_keeps { OnErr result (self.new.sink.held ≡ self.old.sink.held) }
        ensures counted { self.new.plan.faults ≡ faults_after_write self.old.plan.faults result }
    {
        if self.plan.call_fails() {
            return Err(WriteFault::Failed);
        }
        self.sink.write(piece)
    }
}
