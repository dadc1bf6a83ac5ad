//! What a line of a schedule says.

ghost use Rattle.std.specs.Prelude.{◌≡◌, position, option_and_then};
ghost use Rattle.ecf_events.specs.Line.{actor_numbered, event_alone, event_named, event_of};
ghost use Rattle.ecf_events.specs.Stream.{saying_of};
ghost use Rattle.ecf_lines.specs.Line.{is_skipped};
ghost use Rattle.ecf_schedule.specs.Words.{is_space};

use ecf_core::event::Event;
use ecf_decimal::decimal;
use ecf_lang::limits::{MAX_ACTORS, MAX_EVENTS};
use ecf_lang::receipt::StopCause;

/// What a line says after so many events, given without its LF and without the CR that stood before it, or why it stops
/// the reading. Nothing where it is skipped.
pub fn read_line(events: usize, line: &[u8]) -> Result<Option<Event>, StopCause>
    ensures { result ≡ saying_of events line.now }
{
    if is_skipped(line) {
        return Ok(None);
    }
    if events >= MAX_EVENTS {
        return Err(StopCause::Many);
    }
    match event_of(line) {
        Some(event) => Ok(Some(event)),
        None => Err(StopCause::Form),
    }
}

fn is_skipped(line: &[u8]) -> bool
    ensures { result ≡ is_skipped line.now }
{
    match line.first() {
        None => true,
        Some(first) => *first == b'#',
    }
}

fn event_of(line: &[u8]) -> Option<Event>
    ensures { result ≡ event_of line.now }
{
    match place_of_space(line) {
        Some(place) => event_of_actor(&line[..place], &line[place + 1..]),
        None => event_alone(line),
    }
}

fn place_of_space(line: &[u8]) -> Option<usize>
    ensures { result ≡ position is_space line.now }
{
    line.iter().position(|byte| *byte == b' ')
}

fn event_alone(word: &[u8]) -> Option<Event>
    ensures { result ≡ event_alone word.now }
{
    match word {
        b"reclaim" => Some(Event::Reclaim),
        _ => None,
    }
}

fn event_of_actor(word: &[u8], actor: &[u8]) -> Option<Event>
    ensures { result ≡ option_and_then (event_named word.now) (actor_numbered actor.now) }
{
    event_named(word, actor_numbered(actor)?)
}

fn event_named(word: &[u8], actor: u8) -> Option<Event>
    ensures { result ≡ event_named word.now actor }
{
    match word {
        b"claim" => Some(Event::Claim(actor)),
        b"run" => Some(Event::Run(actor)),
        b"hand" => Some(Event::Hand(actor)),
        b"take" => Some(Event::Take(actor)),
        b"judge" => Some(Event::Judge(actor)),
        b"commit" => Some(Event::Commit(actor)),
        b"here" => Some(Event::Here(actor)),
        b"release" => Some(Event::Release(actor)),
        b"lose" => Some(Event::Lose(actor)),
        _ => None,
    }
}

// The actor that a word numbers, in one digit or two.
fn actor_numbered(word: &[u8]) -> Option<u8>
    ensures { result ≡ actor_numbered word.now }
{
    if word.len() > 2 {
        return None;
    }
    let number = decimal(word)?;
    if number < MAX_ACTORS as u128 {
        Some(number as u8)
    } else {
        None
    }
}
