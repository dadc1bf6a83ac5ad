//! What came of a command is written, and the status says how that went.

ghost use Rattle.std.specs.Prelude.{◌≡◌, Result};
ghost use Rattle.ecf_host.specs.Delivery.{IsDelivered, IsPut, status_after};
ghost use Rattle.ecf_host.specs.Refusals.{status_of, note_of};
ghost use Rattle.ecf_host.specs.World.{sink_state};

use crate::failure::{Failure, Report};
use crate::refusal::Refusal;
use ecf_edge::{Sink, WriteFault, put_all};
use std::alloc::Global;

/// A write failed.
pub const WRITE_FAULT: u8 = 5;
/// There was no memory.
pub const NO_MEMORY: u8 = 6;

/// Writes a report on `out`, or the note of a refusal on `note`, and answers the status.
pub fn deliver<K: Sink, N: Sink>(
    alloc: Global,
    outcome: Result<Report, Failure>,
    out: &mut K,
    note: &mut N,
) -> u8
    ensures { IsDelivered outcome (sink_state K.Sink out.old) (sink_state K.Sink out.new)
        (sink_state N.Sink note.old) (sink_state N.Sink note.new) result }
{
    match outcome {
        Ok(report) => put(report.text.as_slice(), report.status, out),
        Err(Failure::Refused(refusal)) => tell(alloc, refusal, note),
        Err(Failure::NoMemory) => NO_MEMORY,
    }
}

// Writes the note of a refusal.
#[tactic(auto, using(crate::proofs::DeliveryLaws::nothing_put))]
fn tell<N: Sink>(alloc: Global, refusal: Refusal, note: &mut N) -> u8
    ensures { IsPut (sink_state N.Sink note.old) (sink_state N.Sink note.new) (note_of refusal) (status_of refusal) result }
{
    match refusal.note(alloc) {
        Ok(text) => put(text.as_bytes(), refusal.status(), note),
        Err(_) => NO_MEMORY,
    }
}

// Writes a text on a sink; `whole` is the status where all of it is written.
#[tactic(auto, using(crate::proofs::DeliveryLaws::is_put))]
fn put<K: Sink>(text: &[u8], whole: u8, sink: &mut K) -> u8
    ensures { IsPut (sink_state K.Sink sink.old) (sink_state K.Sink sink.new) text.now whole result }
{
    status_after(whole, put_all(sink, text))
}

// The status of a write: nothing but want of memory is told as want of memory.
fn status_after(whole: u8, written: Result<(), WriteFault>) -> u8
    ensures { result ≡ status_after whole written }
{
    match written {
        Ok(()) => whole,
        Err(WriteFault::Failed) => WRITE_FAULT,
        Err(WriteFault::NoMemory) => NO_MEMORY,
    }
}
