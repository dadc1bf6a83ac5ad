//! Prints what a schedule came to: a line for each event and its reply, and the line of a stop of the events.
//! Whatever number names nothing of the contract, and a row that isn't there, is spelled by no bytes.
#![tactic(auto)]

ghost use Rattle.std.specs.Prelude.{◌≡◌, map, IfOk};
ghost use Rattle.std.specs.Arc.{arc_value};
ghost use Rattle.ecf_schedule_text.specs.Lines.{lines_of_replies, events_stop_line};

mod events;
pub mod laws;
mod names;
mod replies;
mod words;

use crate::events::write_events_stop;
use crate::names::row_names;
use crate::replies::write_lines;
use ecf_core::event::{Event, Reply};
use ecf_lang::receipt::Stop;
use ecf_lang::tx::TxRef;
use ecf_lang::typed::Typed;
use std::alloc::{AllocError, Global};

/// The lines of events and their replies, one for each pair in their order; of the longer list the rest has no line.
pub fn print_replies(
    alloc: Global,
    typed: &Typed,
    txs: &[TxRef],
    events: &[Event],
    replies: &[Reply],
) -> Result<Vec<u8>, AllocError>
    ensures { IfOk result (λ text.
        text.items ≡ lines_of_replies typed.now (map arc_value txs.now) events.now replies.now) }
{
    let names = row_names(alloc, txs)?;
    let mut text = Vec::new(alloc);
    write_lines(&mut text, typed, names.as_slice(), events, replies)?;
    Ok(text)
}

/// The line that says where and why reading the events stopped early; nothing where it didn't.
pub fn print_events_stop(alloc: Global, stop: Option<Stop>) -> Result<Vec<u8>, AllocError>
    ensures { IfOk result (λ text. text.items ≡ events_stop_line stop) }
{
    let mut text = Vec::new(alloc);
    write_events_stop(&mut text, stop)?;
    Ok(text)
}
