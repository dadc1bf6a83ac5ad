//! Appends replies to a text.

ghost use Rattle.std.specs.Prelude.{◌≡◌, ◌++◌, codes, decimal, OnOk};
ghost use Rattle.ecf_schedule_text.specs.Lines.{change_text, line_of_reply, lines_by_names, name_text, named_text, reply_text, reply_word, row_text, state_text};

use crate::events::write_event;
use crate::names::RowName;
use crate::words::{write_cell, write_number};
use ecf_core::book::RowState;
use ecf_core::event::{Event, Reply};
use ecf_lang::cell::Cell;
use ecf_lang::typed::Typed;
use std::alloc::AllocError;

/// The lines of events and their replies, by the rows' names.
pub fn write_lines(
    text: &mut Vec<u8>,
    typed: &Typed,
    names: &[RowName],
    events: &[Event],
    replies: &[Reply],
) -> Result<(), AllocError>
    ensures { OnOk result (text.new.items
        ≡ text.old.items ++ lines_by_names typed.now names.now events.now replies.now) }
{
    for (event, reply) in events.iter().zip(replies) {
        write_line(text, typed, names, *event, *reply)?;
    }
    Ok(())
}

fn write_line(
    text: &mut Vec<u8>,
    typed: &Typed,
    names: &[RowName],
    event: Event,
    reply: Reply,
) -> Result<(), AllocError>
    ensures { OnOk result (text.new.items
        ≡ text.old.items ++ line_of_reply typed.now names.now event reply) }
{
    write_event(text, event)?;
    text.extend_from_slice(b" -> ")?;
    write_reply(text, typed, names, reply)?;
    text.push(b'\n')?;
    Ok(())
}

fn write_reply(
    text: &mut Vec<u8>,
    typed: &Typed,
    names: &[RowName],
    reply: Reply,
) -> Result<(), AllocError>
    ensures { OnOk result (text.new.items ≡ text.old.items ++ reply_text typed.now names.now reply) }
{
    text.extend_from_slice(reply_word(reply).as_bytes())?;
    write_named(text, typed, names, reply)
}

fn reply_word(reply: Reply) -> &'static str
    ensures { result.now ≡ reply_word reply }
{
    match reply {
        Reply::Work { .. } => "work",
        Reply::Later => "later",
        Reply::Over => "over",
        Reply::Ran => "ran",
        Reply::Handed => "handed",
        Reply::Full => "full",
        Reply::Took { .. } => "took",
        Reply::Empty => "empty",
        Reply::Judged => "judged",
        Reply::Placed { .. } => "placed",
        Reply::Stale { .. } => "stale",
        Reply::LastStale { .. } => "laststale",
        Reply::Gone { .. } => "gone",
        Reply::Freed => "freed",
        Reply::Lost => "lost",
        Reply::Reclaimed { .. } => "reclaimed",
        Reply::Refused => "refused",
    }
}

// What a reply names behind its word.
fn write_named(
    text: &mut Vec<u8>,
    typed: &Typed,
    names: &[RowName],
    reply: Reply,
) -> Result<(), AllocError>
    ensures { OnOk result (text.new.items ≡ text.old.items ++ named_text typed.now names.now reply) }
{
    match reply {
        Reply::Work { row } | Reply::Took { row } => write_row(text, names, row),
        Reply::Placed { seq } => write_count(text, seq),
        Reply::Stale { cell, was, is } | Reply::LastStale { cell, was, is } => {
            write_change(text, typed, cell, was, is)
        }
        Reply::Gone { kept } => write_state(text, kept),
        Reply::Reclaimed { rows } => write_count(text, rows),
        _ => Ok(()),
    }
}

// A row that isn't there is named by its space alone.
fn write_row(text: &mut Vec<u8>, names: &[RowName], row: u32) -> Result<(), AllocError>
    ensures { OnOk result (text.new.items ≡ text.old.items ++ (codes " " ++ row_text names.now row)) }
{
    text.push(b' ')?;
    match names.get(row as usize) {
        Some(name) => write_name(text, name),
        None => Ok(()),
    }
}

fn write_name(text: &mut Vec<u8>, name: &RowName) -> Result<(), AllocError>
    ensures { OnOk result (text.new.items ≡ text.old.items ++ name_text name.now) }
{
    write_number(text, u128::from(name.submitter))?;
    text.push(b'.')?;
    write_number(text, name.number as u128)
}

fn write_count(text: &mut Vec<u8>, count: u32) -> Result<(), AllocError>
    ensures { OnOk result (text.new.items ≡ text.old.items ++ (codes " " ++ decimal count)) }
{
    text.push(b' ')?;
    write_number(text, u128::from(count))
}

fn write_change(
    text: &mut Vec<u8>,
    typed: &Typed,
    cell: Cell,
    was: u128,
    is: u128,
) -> Result<(), AllocError>
    ensures { OnOk result (text.new.items ≡ text.old.items ++ change_text typed.now cell was is) }
{
    text.push(b' ')?;
    write_cell(text, typed, cell)?;
    text.extend_from_slice(b" was ")?;
    write_number(text, was)?;
    text.extend_from_slice(b" is ")?;
    write_number(text, is)
}

fn write_state(text: &mut Vec<u8>, state: RowState) -> Result<(), AllocError>
    ensures { OnOk result (text.new.items ≡ text.old.items ++ state_text state) }
{
    match state {
        RowState::Free { .. } => text.extend_from_slice(b" free"),
        RowState::Claimed { ticket, .. } => {
            text.extend_from_slice(b" claimed")?;
            write_count(text, ticket)
        }
        RowState::Done { seq } => {
            text.extend_from_slice(b" done")?;
            write_count(text, seq)
        }
    }
}
