//! Appends what stands after a journal's entries: the stop, `end` and the cells.

ghost use Rattle.std.specs.Prelude.{◌≡◌, ◌++◌, OnOk, codes};
ghost use Rattle.std.specs.List.{flat_map};
ghost use Rattle.std.specs.Option.{option_copied};
ghost use Rattle.ecf_texts.specs.Stops.{stop_word, stop_line};
ghost use Rattle.ecf_texts.specs.Cells.{field_of, key_text, cell_text, cell_line};
ghost use Rattle.ecf_texts.specs.Journal.{tail_text};

use crate::words::{write_number, write_object};
use ecf_lang::cell::Cell;
use ecf_lang::receipt::{Stop, StopCause};
use ecf_lang::typed::{FieldKind, Typed, TypedField};
use std::alloc::AllocError;

pub fn write_tail(
    text: &mut Vec<u8>,
    typed: &Typed,
    stop: Option<Stop>,
    cells: &[(Cell, u128)],
) -> Result<(), AllocError>
    ensures { OnOk result (text.new.items ≡ text.old.items ++ tail_text typed.now stop cells.now) }
{
    write_stop(text, stop)?;
    text.extend_from_slice(b"end\n")?;
    write_cells(text, typed, cells)
}

fn write_stop(text: &mut Vec<u8>, stop: Option<Stop>) -> Result<(), AllocError>
    ensures { OnOk result (text.new.items ≡ text.old.items ++ stop_line stop) }
{
    let Some(stop) = stop else {
        return Ok(());
    };
    text.extend_from_slice(b"stop ")?;
    write_number(text, u128::from(stop.line))?;
    text.push(b' ')?;
    text.extend_from_slice(stop_word(stop.cause).as_bytes())?;
    text.push(b'\n')?;
    Ok(())
}

fn stop_word(cause: StopCause) -> &'static str
    ensures { result.now ≡ stop_word cause }
{
    match cause {
        StopCause::Form => "form",
        StopCause::Object => "object",
        StopCause::Method => "method",
        StopCause::Fuel => "fuel",
        StopCause::Arity => "arity",
        StopCause::Arg => "arg",
        StopCause::Long => "long",
        StopCause::Many => "many",
        StopCause::Bytes => "bytes",
        StopCause::Read => "read",
    }
}

fn write_cells(text: &mut Vec<u8>, typed: &Typed, cells: &[(Cell, u128)]) -> Result<(), AllocError>
    ensures { OnOk result
        (text.new.items ≡ text.old.items ++ flat_map (λ p. cell_line typed.now p.0 p.1) cells.now) }
{
    for (cell, value) in cells {
        write_cell_line(text, typed, *cell, *value)?;
    }
    Ok(())
}

fn write_cell_line(
    text: &mut Vec<u8>,
    typed: &Typed,
    cell: Cell,
    value: u128,
) -> Result<(), AllocError>
    ensures { OnOk result (text.new.items ≡ text.old.items ++ cell_line typed.now cell value) }
{
    write_cell(text, typed, cell)?;
    text.extend_from_slice(b" = ")?;
    write_number(text, value)?;
    text.push(b'\n')?;
    Ok(())
}

fn write_cell(text: &mut Vec<u8>, typed: &Typed, cell: Cell) -> Result<(), AllocError>
    ensures { OnOk result (text.new.items ≡ text.old.items ++ cell_text typed.now cell) }
{
    write_object(text, typed, usize::from(cell.object))?;
    text.push(b'.')?;
    if let Some(field) = field_of(typed, cell) {
        text.extend_from_slice(field.name.as_bytes())?;
        write_key(text, field.kind, cell.key)?;
    }
    Ok(())
}

fn field_of(typed: &Typed, cell: Cell) -> Option<&TypedField>
    ensures { option_copied result ≡ field_of typed.now cell }
{
    typed
        .objects
        .get(usize::from(cell.object))?
        .fields
        .get(usize::from(cell.field))
}

fn write_key(text: &mut Vec<u8>, kind: FieldKind, key: u128) -> Result<(), AllocError>
    ensures { OnOk result (text.new.items ≡ text.old.items ++ key_text kind key) }
{
    if let FieldKind::Map(..) = kind {
        text.push(b'[')?;
        write_number(text, key)?;
        text.push(b']')?;
    }
    Ok(())
}
