//! Appends events and their stop to a text.

ghost use Rattle.std.specs.Prelude.{◌≡◌, ◌++◌, OnOk};
ghost use Rattle.ecf_core.specs.Core.{actor_of};
ghost use Rattle.ecf_events.specs.Spelled.{word_of};
ghost use Rattle.ecf_schedule_text.specs.Lines.{event_text, events_stop_line};
ghost use Rattle.ecf_texts.specs.Stops.{stop_word};

use crate::words::write_number;
use ecf_core::event::Event;
use ecf_lang::receipt::{Stop, StopCause};
use std::alloc::AllocError;

pub fn write_event(text: &mut Vec<u8>, event: Event) -> Result<(), AllocError>
    ensures { OnOk result (text.new.items ≡ text.old.items ++ event_text event) }
{
    text.extend_from_slice(word_of(event).as_bytes())?;
    if let Some(actor) = actor_of(event) {
        text.push(b' ')?;
        write_number(text, u128::from(actor))?;
    }
    Ok(())
}

fn word_of(event: Event) -> &'static str
    ensures { result.now ≡ word_of event }
{
    match event {
        Event::Claim(_) => "claim",
        Event::Run(_) => "run",
        Event::Hand(_) => "hand",
        Event::Take(_) => "take",
        Event::Judge(_) => "judge",
        Event::Commit(_) => "commit",
        Event::Here(_) => "here",
        Event::Release(_) => "release",
        Event::Lose(_) => "lose",
        Event::Reclaim => "reclaim",
    }
}

fn actor_of(event: Event) -> Option<u8>
    ensures { result ≡ actor_of event }
{
    match event {
        Event::Claim(actor)
        | Event::Run(actor)
        | Event::Hand(actor)
        | Event::Take(actor)
        | Event::Judge(actor)
        | Event::Commit(actor)
        | Event::Here(actor)
        | Event::Release(actor)
        | Event::Lose(actor) => Some(actor),
        Event::Reclaim => None,
    }
}

pub fn write_events_stop(text: &mut Vec<u8>, stop: Option<Stop>) -> Result<(), AllocError>
    ensures { OnOk result (text.new.items ≡ text.old.items ++ events_stop_line stop) }
{
    let Some(stop) = stop else {
        return Ok(());
    };
    text.extend_from_slice(b"stop events ")?;
    write_number(text, u128::from(stop.line))?;
    text.push(b' ')?;
    text.extend_from_slice(stop_word(stop.cause).as_bytes())?;
    text.push(b'\n')?;
    Ok(())
}

fn stop_word(cause: StopCause) -> &'static str
    ensures { result.now ≡ stop_word cause }
{
    match cause {
        StopCause::Form => "form",
        StopCause::Object => "object",
        StopCause::Method => "method",
        StopCause::Fuel => "fuel",
        StopCause::Arity => "arity",
        StopCause::Arg => "arg",
        StopCause::Long => "long",
        StopCause::Many => "many",
        StopCause::Bytes => "bytes",
        StopCause::Read => "read",
    }
}
