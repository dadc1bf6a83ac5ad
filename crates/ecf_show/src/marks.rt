//! Appends single tokens, and the beginnings of lines, to a text.

ghost use Rattle.std.specs.Prelude.{◌∷◌, [], OnOk};
ghost use Rattle.ecf_show.specs.Marks.{Wrote, name_mark, number_mark, spaced};
ghost use Rattle.ecf_show.specs.Marks.Mark.{Line};
ghost use Rattle.ecf_show.specs.Expressions.{flag_mark, op_sign};
ghost use Rattle.ecf_show.specs.Statements.{type_mark};

use ecf_lang::name::Name;
use ecf_lang::tree::{Op, Ty};
use itoa::Buffer;
use std::alloc::AllocError;

pub fn write_name(text: &mut Vec<u8>, name: &Name) -> Result<(), AllocError>
    ensures { OnOk result (Wrote text.old.items text.new.items (name_mark name.now ∷ [])) }
{
    text.extend_from_slice(name.as_bytes())
}

pub fn write_number(text: &mut Vec<u8>, number: u128) -> Result<(), AllocError>
    ensures { OnOk result (Wrote text.old.items text.new.items (number_mark number ∷ [])) }
{
    text.extend_from_slice(Buffer::new().format(number).as_bytes())
}

pub fn write_flag(text: &mut Vec<u8>, flag: bool) -> Result<(), AllocError>
    ensures { OnOk result (Wrote text.old.items text.new.items (flag_mark flag ∷ [])) }
{
    text.extend_from_slice(if flag { b"true" } else { b"false" })
}

pub fn write_type(text: &mut Vec<u8>, ty: Ty) -> Result<(), AllocError>
    ensures { OnOk result (Wrote text.old.items text.new.items (type_mark ty ∷ [])) }
{
    match ty {
        Ty::Num => text.extend_from_slice(b"num"),
        Ty::Flag => text.extend_from_slice(b"flag"),
        Ty::Addr => text.extend_from_slice(b"addr"),
    }
}

/// The sign of an operator, with a space on each side.
pub fn write_op(text: &mut Vec<u8>, op: Op) -> Result<(), AllocError>
    ensures { OnOk result (Wrote text.old.items text.new.items (spaced (op_sign op))) }
{
    match op {
        Op::Add => text.extend_from_slice(b" + "),
        Op::Sub => text.extend_from_slice(b" - "),
        Op::Mul => text.extend_from_slice(b" * "),
        Op::Div => text.extend_from_slice(b" / "),
        Op::Rem => text.extend_from_slice(b" % "),
        Op::Eq => text.extend_from_slice(b" == "),
        Op::Ne => text.extend_from_slice(b" != "),
        Op::Lt => text.extend_from_slice(b" < "),
        Op::Le => text.extend_from_slice(b" <= "),
        Op::Gt => text.extend_from_slice(b" > "),
        Op::Ge => text.extend_from_slice(b" >= "),
    }
}

/// Begins a line behind so many open blocks.
#[tactic(auto, using(crate::proofs::TextLaws::indent_more))]
pub fn write_line(text: &mut Vec<u8>, depth: usize) -> Result<(), AllocError>
    ensures { OnOk result (Wrote text.old.items text.new.items (Line depth ∷ [])) }
{
    text.push(b'\n')?;
    for _ in 0..depth {
        text.extend_from_slice(b"  ")?;
    }
    Ok(())
}
