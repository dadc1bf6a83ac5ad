//! Appends statements and blocks to a text, behind so many open blocks.

ghost use Rattle.std.specs.Prelude.{◌++◌, map, OnOk};
ghost use Rattle.std.specs.Option.{option_map};
ghost use Rattle.ecf_show.specs.Marks.{Wrote};
ghost use Rattle.ecf_show.specs.Statements.{lines_of, stmt_marks, block_marks, condition_marks, last_marks, declared, assigned, semicolon};
ghost use Rattle.ecf_show.specs.Expressions.{expr_marks};

use crate::expressions::{write_call, write_expr, write_tried};
use crate::marks::{write_line, write_name, write_type};
use ecf_lang::name::Name;
use ecf_lang::tree::{Block, Expr, Stmt, Ty};
use std::alloc::AllocError;

/// A block. Only a tree that no memory holds has more open blocks than there are numbers.
#[cycle(statements)]
#[tactic(auto, using(crate::proofs::ExpressionLaws::extended, crate::proofs::StatementLaws::empty_block_written, crate::proofs::StatementLaws::block_written))]
pub fn write_block(text: &mut Vec<u8>, depth: usize, block: &Block) -> Result<(), AllocError>
    ensures { OnOk result (Wrote text.old.items text.new.items (block_marks block.now depth)) }
{
    if block.stmts.is_empty() {
        return text.extend_from_slice(b"{ }");
    }
    text.push(b'{')?;
    write_lines(
        text,
        depth.checked_add(1).ok_or(AllocError)?,
        block.stmts.as_slice(),
    )?;
    write_line(text, depth)?;
    text.push(b'}')?;
    Ok(())
}

/// Statements, each on a line of its own.
#[cycle(statements)]
fn write_lines(text: &mut Vec<u8>, depth: usize, stmts: &[Stmt]) -> Result<(), AllocError>
    ensures { OnOk result (Wrote text.old.items text.new.items (lines_of depth (map stmt_marks stmts.now))) }
{
    for stmt in stmts {
        write_line(text, depth)?;
        write_stmt(text, depth, stmt)?;
    }
    Ok(())
}

#[cycle(statements)]
#[tactic(auto, using(crate::proofs::StatementLaws::no_arm_yet))]
fn write_stmt(text: &mut Vec<u8>, depth: usize, stmt: &Stmt) -> Result<(), AllocError>
    ensures { OnOk result (Wrote text.old.items text.new.items (stmt_marks stmt.now depth)) }
{
    match stmt {
        Stmt::Let {
            name,
            ty,
            value,
            ..
        } => {
            text.extend_from_slice(b"let ")?;
            write_declared(text, name, *ty)?;
            write_assigned(text, value)
        }
        Stmt::Try { name, ty, call, .. } => {
            text.extend_from_slice(b"let ")?;
            write_declared(text, name, *ty)?;
            text.extend_from_slice(b" = try ")?;
            write_tried(text, call)?;
            text.push(b';')?;
            Ok(())
        }
        Stmt::Set { name, value, .. } => {
            write_name(text, name)?;
            write_assigned(text, value)
        }
        Stmt::SetAt {
            name,
            key,
            value,
            ..
        } => {
            write_name(text, name)?;
            text.push(b'[')?;
            write_expr(text, key)?;
            text.push(b']')?;
            write_assigned(text, value)
        }
        Stmt::If { arms, last } => {
            let mut opening: &[u8] = b"if ";
            for (cond, block) in arms.as_slice() {
                text.extend_from_slice(opening)?;
                write_condition(text, cond)?;
                write_block(text, depth, block)?;
                opening = b" else if ";
            }
            write_last(text, depth, last)
        }
        Stmt::While { cond, body } => {
            text.extend_from_slice(b"while ")?;
            write_condition(text, cond)?;
            write_block(text, depth, body)
        }
        Stmt::Return { value } => {
            text.extend_from_slice(b"return ")?;
            write_ended(text, value)
        }
        Stmt::Revert { value } => {
            text.extend_from_slice(b"revert ")?;
            write_ended(text, value)
        }
        Stmt::Do { call } => {
            write_call(text, call)?;
            text.push(b';')?;
            Ok(())
        }
    }
}

/// The last block of an `if`, where there is one.
#[cycle(statements)]
#[tactic(auto, using(crate::proofs::StatementLaws::last_written))]
fn write_last(text: &mut Vec<u8>, depth: usize, last: &Option<Block>) -> Result<(), AllocError>
    ensures { OnOk result (Wrote text.old.items text.new.items (last_marks depth (option_map block_marks last.now))) }
{
    let Some(block) = last else {
        return Ok(());
    };
    text.extend_from_slice(b" else ")?;
    write_block(text, depth, block)
}

/// A condition, and the space between it and the block that it guards.
fn write_condition(text: &mut Vec<u8>, cond: &Expr) -> Result<(), AllocError>
    ensures { OnOk result (Wrote text.old.items text.new.items (condition_marks cond.now)) }
{
    write_expr(text, cond)?;
    text.push(b' ')?;
    Ok(())
}

/// A name and its type.
pub fn write_declared(text: &mut Vec<u8>, name: &Name, ty: Ty) -> Result<(), AllocError>
    ensures { OnOk result (Wrote text.old.items text.new.items (declared name.now ty)) }
{
    write_name(text, name)?;
    text.extend_from_slice(b": ")?;
    write_type(text, ty)
}

/// Behind `=`, a value and the end of the statement.
fn write_assigned(text: &mut Vec<u8>, value: &Expr) -> Result<(), AllocError>
    ensures { OnOk result (Wrote text.old.items text.new.items (assigned (expr_marks value.now))) }
{
    text.extend_from_slice(b" = ")?;
    write_ended(text, value)
}

/// A value and the end of the statement.
fn write_ended(text: &mut Vec<u8>, value: &Expr) -> Result<(), AllocError>
    ensures { OnOk result (Wrote text.old.items text.new.items (expr_marks value.now ++ semicolon)) }
{
    write_expr(text, value)?;
    text.push(b';')?;
    Ok(())
}
