//! Appends numbers and cells to a text.

ghost use Rattle.std.specs.Prelude.{◌≡◌, ◌++◌, OnOk, decimal};
ghost use Rattle.std.specs.Option.{option_copied};
ghost use Rattle.ecf_texts.specs.Words.{object_name};
ghost use Rattle.ecf_texts.specs.Cells.{field_of, key_text, cell_text};

use ecf_lang::cell::Cell;
use ecf_lang::typed::{FieldKind, Typed, TypedField};
use itoa::Buffer;
use std::alloc::AllocError;

pub fn write_number(text: &mut Vec<u8>, number: u128) -> Result<(), AllocError>
    ensures { OnOk result (text.new.items ≡ text.old.items ++ decimal number) }
{
    text.extend_from_slice(Buffer::new().format(number).as_bytes())
}

pub fn write_cell(text: &mut Vec<u8>, typed: &Typed, cell: Cell) -> Result<(), AllocError>
    ensures { OnOk result (text.new.items ≡ text.old.items ++ cell_text typed.now cell) }
{
    write_object(text, typed, usize::from(cell.object))?;
    text.push(b'.')?;
    if let Some(field) = field_of(typed, cell) {
        text.extend_from_slice(field.name.as_bytes())?;
        write_key(text, field.kind, cell.key)?;
    }
    Ok(())
}

fn write_object(text: &mut Vec<u8>, typed: &Typed, object: usize) -> Result<(), AllocError>
    ensures { OnOk result (text.new.items ≡ text.old.items ++ object_name typed.now object) }
{
    match typed.objects.get(object) {
        Some(object) => text.extend_from_slice(object.name.as_bytes()),
        None => Ok(()),
    }
}

fn field_of(typed: &Typed, cell: Cell) -> Option<&TypedField>
    ensures { option_copied result ≡ field_of typed.now cell }
{
    typed
        .objects
        .get(usize::from(cell.object))?
        .fields
        .get(usize::from(cell.field))
}

fn write_key(text: &mut Vec<u8>, kind: FieldKind, key: u128) -> Result<(), AllocError>
    ensures { OnOk result (text.new.items ≡ text.old.items ++ key_text kind key) }
{
    if let FieldKind::Map(..) = kind {
        text.push(b'[')?;
        write_number(text, key)?;
        text.push(b']')?;
    }
    Ok(())
}
