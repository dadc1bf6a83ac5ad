//! The values of expressions without calls.

ghost use Rattle.std.specs.Prelude.{◌≡◌, true};
ghost use Rattle.ecf_lang.specs.Meaning.{op_value};
ghost use Rattle.ecf_plain.specs.Leads.{Does, all_after, all_of, any_after, any_of, chained, named, negated, operated, valued};
ghost use Rattle.ecf_plain.specs.Plain.{are_plain, is_plain, parts_plain};
ghost use Rattle.ecf_plain.specs.Stops.{stopped_by};

use crate::charges::{charge, constant, fetch};
use crate::stopped::Stopped;
use ecf_lang::cell::CellRead;
use ecf_lang::costs::{OPERATOR, TEST};
use ecf_lang::run::Cause;
use ecf_lang::tree::Op;
use ecf_lang::typed::{Place, TypedExpr};
use ecf_progress::{OpenFrame, RunState, Segments};

/// Puts the value of an expression in its place. One with a call in it stops at the first that it comes to.
#[cycle(expressions)]
pub(crate) fn value<'s, R: CellRead>(
    state: &mut RunState<'s, R>,
    frame: &OpenFrame,
    locals: &Segments,
    expr: &TypedExpr,
    out: &mut u128,
) -> Result<(), Stopped>
    ensures { is_plain expr.now ≡ true → Does frame.now (valued locals.now.top expr.now) result out.new state.old state.new }
{
    match expr {
        TypedExpr::Number { value } => constant(state, frame, *value, out),
        TypedExpr::Flag { value } => constant(state, frame, u128::from(*value), out),
        TypedExpr::Here => constant(state, frame, u128::from(frame.object), out),
        TypedExpr::Name { place } => named(state, frame, locals, *place, out),
        TypedExpr::At { map, key } => {
            operand(state, frame, locals, key.get(), out)?;
            let key = *out;
            fetch(state, frame, *map, key, out)
        }
        TypedExpr::Not { inner } => {
            operand(state, frame, locals, inner.get(), out)?;
            not(state, frame, out)
        }
        TypedExpr::Product { first, rest } => {
            operand(state, frame, locals, first.get(), out)?;
            further(state, frame, locals, rest.as_slice(), out)
        }
        TypedExpr::Sum { first, rest } => {
            operand(state, frame, locals, first.get(), out)?;
            further(state, frame, locals, rest.as_slice(), out)
        }
        TypedExpr::Compare { left, op, right } => {
            let mut other = 0;
            operand(state, frame, locals, left.get(), out)?;
            operand(state, frame, locals, right.get(), &mut other)?;
            operate(state, frame, *op, other, out)
        }
        TypedExpr::And { parts } => all(state, frame, locals, parts.as_slice(), out),
        TypedExpr::Or { parts } => any(state, frame, locals, parts.as_slice(), out),
        TypedExpr::Call { .. } => Err(Stopped::Call),
    }
}

/// The same, without a call of a function where the expression is a number or a name.
#[cycle(expressions)]
#[inline(always)]
pub(crate) fn operand<'s, R: CellRead>(
    state: &mut RunState<'s, R>,
    frame: &OpenFrame,
    locals: &Segments,
    expr: &TypedExpr,
    out: &mut u128,
) -> Result<(), Stopped>
    ensures { is_plain expr.now ≡ true → Does frame.now (valued locals.now.top expr.now) result out.new state.old state.new }
{
    match expr {
        TypedExpr::Number { value } => constant(state, frame, *value, out),
        TypedExpr::Name { place } => named(state, frame, locals, *place, out),
        _ => value(state, frame, locals, expr, out),
    }
}

/// Puts what a name stands for in its place.
#[inline(always)]
fn named<'s, R: CellRead>(
    state: &mut RunState<'s, R>,
    frame: &OpenFrame,
    locals: &Segments,
    place: Place,
    out: &mut u128,
) -> Result<(), Stopped>
    ensures { Does frame.now (named locals.now.top place) result out.new state.old state.new }
{
    match place {
        Place::Local(n) => constant(state, frame, locals.get(n), out),
        Place::Plain(field) => fetch(state, frame, field, 0, out),
        Place::Object(object) => constant(state, frame, u128::from(object), out),
    }
}

/// Charges for a `!`, and turns the value round.
fn not<'s, R: CellRead>(
    state: &mut RunState<'s, R>,
    frame: &OpenFrame,
    out: &mut u128,
) -> Result<(), Stopped>
    ensures { Does frame.now (negated out.old) result out.new state.old state.new }
{
    charge(state, frame, OPERATOR)?;
    *out = u128::from(*out == 0);
    Ok(())
}

/// Goes on with the further parts of a sum or product.
#[cycle(expressions)]
#[inline(always)]
fn further<'s, R: CellRead>(
    state: &mut RunState<'s, R>,
    frame: &OpenFrame,
    locals: &Segments,
    parts: &[(Op, TypedExpr)],
    total: &mut u128,
) -> Result<(), Stopped>
    ensures { parts_plain parts.now ≡ true →
        Does frame.now (chained locals.now.top total.old parts.now) result total.new state.old state.new }
{
    for (op, part) in parts {
        let mut other = 0;
        operand(state, frame, locals, part, &mut other)?;
        operate(state, frame, *op, other, total)?;
    }
    Ok(())
}

/// The parts of an `&&`, up to the first that is false.
#[cycle(expressions)]
fn all<'s, R: CellRead>(
    state: &mut RunState<'s, R>,
    frame: &OpenFrame,
    locals: &Segments,
    parts: &[TypedExpr],
    out: &mut u128,
) -> Result<(), Stopped>
    ensures { are_plain parts.now ≡ true → Does frame.now (all_of locals.now.top parts.now) result out.new state.old state.new }
{
    let [first, others @ ..] = parts else {
        *out = 0;
        return Ok(());
    };
    operand(state, frame, locals, first, out)?;
    for part in others {
        charge(state, frame, TEST)?;
        if *out == 0 {
            return Ok(());
        }
        operand(state, frame, locals, part, out)?;
    }
    Ok(())
}

/// The parts of an `||`, up to the first that is true.
#[cycle(expressions)]
fn any<'s, R: CellRead>(
    state: &mut RunState<'s, R>,
    frame: &OpenFrame,
    locals: &Segments,
    parts: &[TypedExpr],
    out: &mut u128,
) -> Result<(), Stopped>
    ensures { are_plain parts.now ≡ true → Does frame.now (any_of locals.now.top parts.now) result out.new state.old state.new }
{
    let [first, others @ ..] = parts else {
        *out = 0;
        return Ok(());
    };
    operand(state, frame, locals, first, out)?;
    for part in others {
        charge(state, frame, TEST)?;
        if *out != 0 {
            return Ok(());
        }
        operand(state, frame, locals, part, out)?;
    }
    Ok(())
}

/// Charges for an operator, and puts its value at two numbers in the left one's place.
#[inline(always)]
fn operate<'s, R: CellRead>(
    state: &mut RunState<'s, R>,
    frame: &OpenFrame,
    op: Op,
    right: u128,
    total: &mut u128,
) -> Result<(), Stopped>
    ensures { Does frame.now (operated total.old op right) result total.new state.old state.new }
{
    charge(state, frame, OPERATOR)?;
    match op_value(op, *total, right) {
        Ok(value) => {
            *total = value;
            Ok(())
        }
        Err(cause) => Err(stopped_by(cause)),
    }
}

/// An operator's value at two numbers, or why there is none.
#[inline(always)]
fn op_value(op: Op, x: u128, y: u128) -> Result<u128, Cause>
    ensures { result ≡ op_value op x y }
{
    match op {
        Op::Add => x.checked_add(y).ok_or(Cause::Overflow),
        Op::Sub => x.checked_sub(y).ok_or(Cause::Overflow),
        Op::Mul => x.checked_mul(y).ok_or(Cause::Overflow),
        Op::Div => x.checked_div(y).ok_or(Cause::DivZero),
        Op::Rem => x.checked_rem(y).ok_or(Cause::DivZero),
        Op::Eq => Ok(u128::from(x == y)),
        Op::Ne => Ok(u128::from(x != y)),
        Op::Lt => Ok(u128::from(x < y)),
        Op::Le => Ok(u128::from(x <= y)),
        Op::Gt => Ok(u128::from(x > y)),
        Op::Ge => Ok(u128::from(x >= y)),
    }
}

/// The reason of an operator that has no value.
#[inline(always)]
fn stopped_by(cause: Cause) -> Stopped
    ensures { result ≡ stopped_by cause }
{
    match cause {
        Cause::Overflow => Stopped::Overflow,
        Cause::DivZero => Stopped::DivZero,
        Cause::User(_) | Cause::NoMethod | Cause::Depth | Cause::Calls => Stopped::OutOfMemory,
    }
}
