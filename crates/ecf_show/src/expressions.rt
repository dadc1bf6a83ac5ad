//! Appends expressions and calls to a text, with the parentheses that they need and no other.

ghost use Rattle.std.specs.Prelude.{◌≡◌, ◌++◌, map, OnOk};
ghost use Rattle.std.specs.List.{flat_map};
ghost use Rattle.ecf_grammar.specs.declared.tokens.Sign.TheVariants.{And, Or};
ghost use Rattle.ecf_show.specs.Marks.{Wrote, spaced, joined, comma};
ghost use Rattle.ecf_show.specs.Expressions.{shown, shown_call, expr_marks, call_marks, part, further_part, invoked};

use crate::levels::{AND, ATOM, COMPARE, NOT, OR, PRODUCT, SUM, TARGET};
use crate::marks::{write_flag, write_name, write_number, write_op};
use ecf_lang::name::Name;
use ecf_lang::tree::{CallExpr, Expr, Op};
use std::alloc::AllocError;

#[tactic(auto, using(crate::specs::Forms::shown_number, crate::specs::Forms::shown_flag, crate::specs::Forms::shown_here, crate::specs::Forms::shown_name, crate::specs::Forms::shown_at, crate::specs::Forms::shown_called, crate::specs::Forms::shown_not, crate::specs::Forms::shown_product, crate::specs::Forms::shown_sum, crate::specs::Forms::shown_compare, crate::specs::Forms::shown_and, crate::specs::Forms::shown_or))]
fn level(expr: &Expr) -> u8
    ensures { result ≡ (shown expr.now).level }
{
    match expr {
        Expr::Or { .. } => OR,
        Expr::And { .. } => AND,
        Expr::Compare { .. } => COMPARE,
        Expr::Sum { .. } => SUM,
        Expr::Product { .. } => PRODUCT,
        Expr::Not { .. } => NOT,
        Expr::Number { .. } | Expr::Flag { .. } | Expr::Call { .. } => ATOM,
        Expr::Here { .. } | Expr::Name { .. } | Expr::At { .. } => TARGET,
    }
}

/// An expression, with no parentheses around it.
#[cycle(expressions)]
pub fn write_expr(text: &mut Vec<u8>, expr: &Expr) -> Result<(), AllocError>
    ensures { OnOk result (Wrote text.old.items text.new.items (expr_marks expr.now)) }
{
    match expr {
        Expr::Number { value, .. } => write_number(text, *value),
        Expr::Flag { value, .. } => write_flag(text, *value),
        Expr::Here { .. } => text.extend_from_slice(b"here"),
        Expr::Name { name, .. } => write_name(text, name),
        Expr::At { name, key, .. } => {
            write_name(text, name)?;
            text.push(b'[')?;
            write_expr(text, key.get())?;
            text.push(b']')?;
            Ok(())
        }
        Expr::Call { call } => write_call(text, call),
        Expr::Not { inner, .. } => {
            text.push(b'!')?;
            write_part(text, ATOM, inner.get())
        }
        Expr::Product { first, rest } => {
            write_part(text, NOT, first.get())?;
            write_further(text, NOT, rest.as_slice())
        }
        Expr::Sum { first, rest } => {
            write_part(text, PRODUCT, first.get())?;
            write_further(text, PRODUCT, rest.as_slice())
        }
        Expr::Compare { left, op, right } => {
            write_part(text, SUM, left.get())?;
            write_op(text, *op)?;
            write_part(text, SUM, right.get())
        }
        Expr::And { parts } => write_conjunction(text, parts.as_slice()),
        Expr::Or { parts } => write_disjunction(text, parts.as_slice()),
    }
}

/// A part of which this level is required.
#[cycle(expressions)]
#[tactic(auto, using(crate::proofs::TextLaws::part_enclosed, crate::proofs::TextLaws::part_bare))]
fn write_part(text: &mut Vec<u8>, required: u8, expr: &Expr) -> Result<(), AllocError>
    ensures { OnOk result (Wrote text.old.items text.new.items (part required (shown expr.now))) }
{
    if level(expr) < required {
        text.push(b'(')?;
        write_expr(text, expr)?;
        text.push(b')')?;
        Ok(())
    } else {
        write_expr(text, expr)
    }
}

/// The further parts of a sum or product, each behind its operator.
#[cycle(expressions)]
fn write_further(text: &mut Vec<u8>, required: u8, rest: &[(Op, Expr)]) -> Result<(), AllocError>
    ensures { OnOk result (Wrote text.old.items text.new.items
        (flat_map (further_part required) (map (λ p. (p.0, shown p.1)) rest.now))) }
{
    for (op, expr) in rest {
        write_op(text, *op)?;
        write_part(text, required, expr)?;
    }
    Ok(())
}

#[cycle(expressions)]
fn write_conjunction(text: &mut Vec<u8>, parts: &[Expr]) -> Result<(), AllocError>
    ensures { OnOk result (Wrote text.old.items text.new.items
        (joined (spaced And) (map (part COMPARE) (map shown parts.now)))) }
{
    let [first, rest @ ..] = parts else {
        return Ok(());
    };
    write_part(text, COMPARE, first)?;
    for expr in rest {
        text.extend_from_slice(b" && ")?;
        write_part(text, COMPARE, expr)?;
    }
    Ok(())
}

#[cycle(expressions)]
fn write_disjunction(text: &mut Vec<u8>, parts: &[Expr]) -> Result<(), AllocError>
    ensures { OnOk result (Wrote text.old.items text.new.items
        (joined (spaced Or) (map (part AND) (map shown parts.now)))) }
{
    let [first, rest @ ..] = parts else {
        return Ok(());
    };
    write_part(text, AND, first)?;
    for expr in rest {
        text.extend_from_slice(b" || ")?;
        write_part(text, AND, expr)?;
    }
    Ok(())
}

#[cycle(expressions)]
pub fn write_call(text: &mut Vec<u8>, call: &CallExpr) -> Result<(), AllocError>
    ensures { OnOk result (Wrote text.old.items text.new.items (call_marks call.now)) }
{
    match call {
        CallExpr::External { .. } => {
            text.extend_from_slice(b"call ")?;
            write_tried(text, call)
        }
        CallExpr::Internal { .. } => write_tried(text, call),
    }
}

/// A call without the word `call`, as it stands behind `try`.
#[cycle(expressions)]
pub fn write_tried(text: &mut Vec<u8>, call: &CallExpr) -> Result<(), AllocError>
    ensures { OnOk result (Wrote text.old.items text.new.items (shown_call call.now).tried) }
{
    match call {
        CallExpr::External {
            target,
            name,
            args,
            ..
        } => {
            write_part(text, TARGET, target.get())?;
            text.push(b'.')?;
            write_invoked(text, name, args.as_slice())
        }
        CallExpr::Internal { name, args, .. } => {
            text.extend_from_slice(b"self.")?;
            write_invoked(text, name, args.as_slice())
        }
    }
}

/// A method's name and arguments.
#[cycle(expressions)]
fn write_invoked(text: &mut Vec<u8>, method: &Name, args: &[Expr]) -> Result<(), AllocError>
    ensures { OnOk result (Wrote text.old.items text.new.items (invoked method.now (map shown args.now))) }
{
    write_name(text, method)?;
    text.push(b'(')?;
    write_arguments(text, args)?;
    text.push(b')')?;
    Ok(())
}

#[cycle(expressions)]
fn write_arguments(text: &mut Vec<u8>, args: &[Expr]) -> Result<(), AllocError>
    ensures { OnOk result (Wrote text.old.items text.new.items
        (joined comma (map (λ arg. arg.marks) (map shown args.now)))) }
{
    let [first, rest @ ..] = args else {
        return Ok(());
    };
    write_expr(text, first)?;
    for arg in rest {
        text.extend_from_slice(b", ")?;
        write_expr(text, arg)?;
    }
    Ok(())
}
