//! What is known of a form of expression, from what is known of its parts.

ghost use Rattle.std.specs.Prelude.{◌≡◌, IfOk};
ghost use Rattle.std.specs.Option.{option_map};
ghost use Rattle.ecf_lang.specs.declared.tree.Ty.TheVariants.{Num, Flag, Addr};
ghost use Rattle.ecf_lang.specs.declared.typed.TypedCall.TheVariants as called;
ghost use Rattle.ecf_lang.specs.declared.typed.TypedExpr.TheVariants as typed;
ghost use Rattle.ecf_faults.specs.Expressions.{left_side_type, right_side_type, value_type, map_number, method_number, answer_type};
ghost use Rattle.ecf_typing.specs.Views.{signature_view};
ghost use Rattle.ecf_typing.specs.Summaries.{plain_summary};

use crate::reference::{MethodTypes, answer_type, map_number, method_number, value_type};
use ecf_lang::tree::{Op, Ty};
use ecf_lang::typed::{FieldKind, TypedCall, TypedExpr};
use sqlite_items::{Boxed, Items};
use std::alloc::{AllocError, Global};

/// What is known of an expression or call but its faults: its token, its type if it has one, and its numbered form.
#[derive(Drop)]
pub(crate) struct Summary<F> {
    pub(crate) place: u32,
    pub(crate) ty: Option<Ty>,
    pub(crate) form: F,
}

pub(crate) fn plain_summary(place: u32, ty: Ty, form: TypedExpr) -> Summary<TypedExpr>
    ensures { result ≡ plain_summary place ty form }
{
    Summary {
        place,
        ty: Some(ty),
        form,
    }
}

pub(crate) fn number(at: u32, value: u128) -> Summary<TypedExpr>
    ensures { result ≡ plain_summary at Num (typed.Number value) }
{
    plain_summary(at, Ty::Num, TypedExpr::Number { value })
}

pub(crate) fn flag(at: u32, value: bool) -> Summary<TypedExpr>
    ensures { result ≡ plain_summary at Flag (typed.Flag value) }
{
    plain_summary(at, Ty::Flag, TypedExpr::Flag { value })
}

pub(crate) fn here(at: u32) -> Summary<TypedExpr>
    ensures { result ≡ plain_summary at Addr typed.Here }
{
    plain_summary(at, Ty::Addr, TypedExpr::Here)
}

pub(crate) fn index(
    alloc: Global,
    at: u32,
    own: Option<(usize, FieldKind)>,
    key: Summary<TypedExpr>,
) -> Result<Summary<TypedExpr>, AllocError>
    ensures { IfOk result (λ c. c ≡ record { place = at; ty = value_type own; form = typed.At (map_number own) key.form }) }
{
    let key = Boxed::new(alloc, key.form)?;
    let map = map_number(own);
    Ok(Summary {
        place: at,
        ty: value_type(own),
        form: TypedExpr::At { map, key },
    })
}

pub(crate) fn not(
    alloc: Global,
    at: u32,
    inner: Summary<TypedExpr>,
) -> Result<Summary<TypedExpr>, AllocError>
    ensures { IfOk result (λ c. c ≡ plain_summary at Flag (typed.Not inner.form)) }
{
    let inner = Boxed::new(alloc, inner.form)?;
    Ok(plain_summary(at, Ty::Flag, TypedExpr::Not { inner }))
}

pub(crate) fn product(
    alloc: Global,
    first: Summary<TypedExpr>,
    rest: Items<(Op, TypedExpr)>,
) -> Result<Summary<TypedExpr>, AllocError>
    ensures { IfOk result (λ c. c ≡ plain_summary first.place Num (typed.Product first.form rest)) }
{
    let place = first.place;
    let first = Boxed::new(alloc, first.form)?;
    Ok(plain_summary(place, Ty::Num, TypedExpr::Product { first, rest }))
}

pub(crate) fn sum(
    alloc: Global,
    first: Summary<TypedExpr>,
    rest: Items<(Op, TypedExpr)>,
) -> Result<Summary<TypedExpr>, AllocError>
    ensures { IfOk result (λ c. c ≡ plain_summary first.place Num (typed.Sum first.form rest)) }
{
    let place = first.place;
    let first = Boxed::new(alloc, first.form)?;
    Ok(plain_summary(place, Ty::Num, TypedExpr::Sum { first, rest }))
}

pub(crate) fn compare(
    alloc: Global,
    left: Summary<TypedExpr>,
    op: Op,
    right: Summary<TypedExpr>,
) -> Result<Summary<TypedExpr>, AllocError>
    ensures { IfOk result (λ c. c ≡ plain_summary left.place Flag (typed.Compare left.form op right.form)) }
{
    let place = left.place;
    let left = Boxed::new(alloc, left.form)?;
    let right = Boxed::new(alloc, right.form)?;
    Ok(plain_summary(place, Ty::Flag, TypedExpr::Compare { left, op, right }))
}

/// What is required of the left side of a comparison.
pub(crate) fn left_side_type(op: Op) -> Option<Ty>
    ensures { result ≡ left_side_type op }
{
    match op {
        Op::Eq | Op::Ne => None,
        _ => Some(Ty::Num),
    }
}

/// What is required of the right side of a comparison, from the type of the left.
pub(crate) fn right_side_type(op: Op, left: Option<Ty>) -> Option<Ty>
    ensures { result ≡ right_side_type op left }
{
    match op {
        Op::Eq | Op::Ne => left,
        _ => Some(Ty::Num),
    }
}

pub(crate) fn external(
    alloc: Global,
    at: u32,
    target: Summary<TypedExpr>,
    method: Option<MethodTypes<'_>>,
    args: Items<TypedExpr>,
) -> Result<Summary<TypedCall>, AllocError>
    ensures { let method = option_map signature_view method.entry in
        IfOk result (λ c. c ≡ record { place = at; ty = answer_type method; form = called.External target.form (method_number method) args }) }
{
    let target = Boxed::new(alloc, target.form)?;
    let name = method_number(method);
    Ok(Summary {
        place: at,
        ty: answer_type(method),
        form: TypedCall::External { target, name, args },
    })
}

pub(crate) fn internal(
    at: u32,
    method: Option<MethodTypes<'_>>,
    args: Items<TypedExpr>,
) -> Summary<TypedCall>
    ensures { let method = option_map signature_view method.entry in
        result ≡ record { place = at; ty = answer_type method; form = called.Internal (method_number method) args } }
{
    let name = method_number(method);
    Summary {
        place: at,
        ty: answer_type(method),
        form: TypedCall::Internal { name, args },
    }
}
