//! Appends names and values to a text.

ghost use Rattle.std.specs.Prelude.{◌≡◌, ◌++◌, OnOk, codes, decimal};
ghost use Rattle.ecf_lang.specs.Signatures.{params_of};
ghost use Rattle.ecf_texts.specs.Words.{object_name, method_name, value_word, arguments_text};

use ecf_lang::name::Name;
use ecf_lang::tree::Ty;
use ecf_lang::typed::Typed;
use itoa::Buffer;
use std::alloc::AllocError;

pub fn write_number(text: &mut Vec<u8>, number: u128) -> Result<(), AllocError>
    ensures { OnOk result (text.new.items ≡ text.old.items ++ decimal number) }
{
    text.extend_from_slice(Buffer::new().format(number).as_bytes())
}

pub fn write_object(text: &mut Vec<u8>, typed: &Typed, object: usize) -> Result<(), AllocError>
    ensures { OnOk result (text.new.items ≡ text.old.items ++ object_name typed.now object) }
{
    match typed.objects.get(object) {
        Some(object) => text.extend_from_slice(object.name.as_bytes()),
        None => Ok(()),
    }
}

pub fn write_method(text: &mut Vec<u8>, typed: &Typed, method: u16) -> Result<(), AllocError>
    ensures { OnOk result (text.new.items ≡ text.old.items ++ method_name typed.now method) }
{
    match typed.names.get(usize::from(method)) {
        Some(name) => text.extend_from_slice(name.as_bytes()),
        None => Ok(()),
    }
}

fn write_value(text: &mut Vec<u8>, typed: &Typed, ty: Ty, value: u128) -> Result<(), AllocError>
    ensures { OnOk result (text.new.items ≡ text.old.items ++ value_word typed.now ty value) }
{
    match ty {
        Ty::Num => write_number(text, value),
        Ty::Flag if value == 0 => text.extend_from_slice(b"false"),
        Ty::Flag => text.extend_from_slice(b"true"),
        Ty::Addr if value < typed.objects.len() as u128 => {
            write_object(text, typed, value as usize)
        }
        Ty::Addr => Ok(()),
    }
}

/// The types of the parameters of a method of that name.
pub fn params_of(typed: &Typed, method: u16) -> &[Ty]
    ensures { result.now ≡ params_of typed.now method }
{
    match typed.signatures.get(usize::from(method)) {
        Some(signature) => signature.params.as_slice(),
        None => &[],
    }
}

pub fn write_arguments(
    text: &mut Vec<u8>,
    typed: &Typed,
    params: &[Ty],
    args: &[u128],
) -> Result<(), AllocError>
    ensures { OnOk result
        (text.new.items ≡ text.old.items ++ arguments_text typed.now params.now args.now) }
{
    for (ty, value) in params.iter().zip(args) {
        text.push(b' ')?;
        write_value(text, typed, *ty, *value)?;
    }
    Ok(())
}
