//! Appends fields, maps, methods, objects and whole files to a text.

ghost use Rattle.std.specs.Prelude.{◌∷◌, [], map, OnOk};
ghost use Rattle.std.specs.List.{flat_map};
ghost use Rattle.ecf_show.specs.Marks.{Wrote, joined, comma};
ghost use Rattle.ecf_show.specs.Statements.{lines_of};
ghost use Rattle.ecf_show.specs.Files.{const_mark, first_marks, entry_marks, entries_marks, param_marks, member_marks, object_marks, file_marks};

use crate::marks::{write_flag, write_line, write_name, write_number, write_type};
use crate::statements::{write_block, write_declared};
use ecf_lang::tree::{Const, Member, ObjectDecl, Param, Tree};
use std::alloc::AllocError;

pub fn write_file(text: &mut Vec<u8>, tree: &Tree) -> Result<(), AllocError>
    ensures { OnOk result (Wrote text.old.items text.new.items (file_marks tree.now)) }
{
    for object in tree.objects.as_slice() {
        write_object(text, object)?;
    }
    Ok(())
}

#[tactic(auto, using(crate::proofs::ExpressionLaws::extended, crate::proofs::FileLaws::empty_object_written, crate::proofs::FileLaws::object_written))]
fn write_object(text: &mut Vec<u8>, object: &ObjectDecl) -> Result<(), AllocError>
    ensures { OnOk result (Wrote text.old.items text.new.items (object_marks object.now)) }
{
    text.extend_from_slice(b"object ")?;
    write_name(text, &object.name)?;
    if object.members.is_empty() {
        return text.extend_from_slice(b" { }\n");
    }
    text.extend_from_slice(b" {")?;
    write_members(text, object.members.as_slice())?;
    text.extend_from_slice(b"\n}\n")
}

/// Members, each on a line of its own.
fn write_members(text: &mut Vec<u8>, members: &[Member]) -> Result<(), AllocError>
    ensures { OnOk result (Wrote text.old.items text.new.items (lines_of 1 (map (λ m depth. member_marks m) members.now))) }
{
    for member in members {
        write_line(text, 1)?;
        write_member(text, member)?;
    }
    Ok(())
}

fn write_member(text: &mut Vec<u8>, member: &Member) -> Result<(), AllocError>
    ensures { OnOk result (Wrote text.old.items text.new.items (member_marks member.now)) }
{
    match member {
        Member::Field {
            name,
            ty,
            first,
            ..
        } => {
            write_type(text, *ty)?;
            text.push(b' ')?;
            write_name(text, name)?;
            write_first(text, first)?;
            text.push(b';')?;
            Ok(())
        }
        Member::Map {
            name,
            key,
            value,
            first,
            ..
        } => {
            text.extend_from_slice(b"map ")?;
            write_declared(text, name, *key)?;
            text.extend_from_slice(b" -> ")?;
            write_type(text, *value)?;
            write_entries(text, first.as_slice())?;
            text.push(b';')?;
            Ok(())
        }
        Member::Method {
            name,
            params,
            answer,
            body,
            ..
        } => {
            text.extend_from_slice(b"method ")?;
            write_name(text, name)?;
            text.push(b'(')?;
            write_params(text, params.as_slice())?;
            text.extend_from_slice(b"): ")?;
            write_type(text, *answer)?;
            text.push(b' ')?;
            write_block(text, 1, body)
        }
    }
}

fn write_params(text: &mut Vec<u8>, params: &[Param]) -> Result<(), AllocError>
    ensures { OnOk result (Wrote text.old.items text.new.items (joined comma (map param_marks params.now))) }
{
    let [first, rest @ ..] = params else {
        return Ok(());
    };
    write_declared(text, &first.name, first.ty)?;
    for param in rest {
        text.extend_from_slice(b", ")?;
        write_declared(text, &param.name, param.ty)?;
    }
    Ok(())
}

/// The initial value of a field, where it has one.
#[tactic(auto, using(crate::proofs::FileLaws::first_written))]
fn write_first(text: &mut Vec<u8>, first: &Option<Const>) -> Result<(), AllocError>
    ensures { OnOk result (Wrote text.old.items text.new.items (first_marks first.now)) }
{
    let Some(value) = first else {
        return Ok(());
    };
    text.extend_from_slice(b" = ")?;
    write_const(text, value)
}

/// The initial entries of a map, where it has some.
fn write_entries(text: &mut Vec<u8>, entries: &[(Const, Const)]) -> Result<(), AllocError>
    ensures { OnOk result (Wrote text.old.items text.new.items (entries_marks entries.now)) }
{
    let [first, rest @ ..] = entries else {
        return Ok(());
    };
    text.extend_from_slice(b" = { ")?;
    write_entry(text, first)?;
    for entry in rest {
        text.extend_from_slice(b", ")?;
        write_entry(text, entry)?;
    }
    text.extend_from_slice(b" }")
}

#[tactic(auto, using(crate::proofs::FileLaws::entry_written))]
fn write_entry(text: &mut Vec<u8>, entry: &(Const, Const)) -> Result<(), AllocError>
    ensures { OnOk result (Wrote text.old.items text.new.items (entry_marks entry.now)) }
{
    write_const(text, &entry.0)?;
    text.extend_from_slice(b": ")?;
    write_const(text, &entry.1)
}

fn write_const(text: &mut Vec<u8>, value: &Const) -> Result<(), AllocError>
    ensures { OnOk result (Wrote text.old.items text.new.items (const_mark value.now ∷ [])) }
{
    match value {
        Const::Number { value, .. } => write_number(text, *value),
        Const::Flag { value, .. } => write_flag(text, *value),
        Const::Name { name, .. } => write_name(text, name),
    }
}
