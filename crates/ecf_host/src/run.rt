//! `run FILE`: the contract that is run, and the status that the run ends with.

ghost use Rattle.std.specs.Prelude.{◌≡◌, IfErr, IfOk, Err, Some};
ghost use Rattle.ecf_heap.specs.Numbered.{IsWithinLimits};
ghost use Rattle.ecf_lines.specs.Line.{IsNumbered};
ghost use Rattle.ecf_host.specs.Delivery.{status_of_run};
ghost use Rattle.ecf_host.specs.Due.{Comes, status_of_stop, status_of_cause};
ghost use Rattle.ecf_host.specs.Served.{IsAccepted};
ghost use Rattle.ecf_host.specs.Words.{Command};
ghost use Rattle.ecf_host.specs.World.{SourceState, shelf_state};

use crate::contract::{contract_of, fetch_contract};
use crate::deliver::{NO_MEMORY, WRITE_FAULT};
use crate::failure::Failure;
use ecf_edge::{Shelf, WriteFault};
use ecf_lang::receipt::{Stop, StopCause};
use ecf_lang::typed::Typed;
use std::alloc::Global;

/// The contract in a file.
pub fn accept<F: Shelf>(alloc: Global, file: &str, shelf: &mut F) -> Result<Typed, Failure>
    ensures accepted { IfOk result (λ typed. (source source' : SourceState) → IsAccepted file.now
        (record { shelf = shelf_state F.Shelf shelf.old; source = source }) (record { shelf = shelf_state F.Shelf shelf.new; source = source' }) typed) }
    ensures refused { IfErr result (λ failure. (source : SourceState) → Comes (Some (Command.Run file.now))
        (record { shelf = shelf_state F.Shelf shelf.old; source = source }) (record { shelf = shelf_state F.Shelf shelf.new; source = source }) (Err failure)) }
    ensures numbered { IfOk result IsNumbered }
    ensures limits { IfOk result IsWithinLimits }
{
    let text = fetch_contract(alloc, file, shelf)?;
    contract_of(alloc, text.as_slice())
}

/// The status of a run, by the stop of its stream where the journal was written, or by why it wasn't.
pub fn status_of_run(ran: Result<Option<Stop>, WriteFault>) -> u8
    ensures { result ≡ status_of_run ran }
{
    match ran {
        Ok(stop) => status_of_stop(stop),
        Err(WriteFault::Failed) => WRITE_FAULT,
        Err(WriteFault::NoMemory) => NO_MEMORY,
    }
}

// The status of a journal, by why reading its stream stopped early.
fn status_of_stop(stop: Option<Stop>) -> u8
    ensures { result ≡ status_of_stop stop }
{
    match stop {
        None => 0,
        Some(stop) => status_of_cause(stop.cause),
    }
}

fn status_of_cause(cause: StopCause) -> u8
    ensures { result ≡ status_of_cause cause }
{
    match cause {
        StopCause::Read => 4,
        _ => 3,
    }
}
