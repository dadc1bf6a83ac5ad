//! What names and methods that are looked up stand for.

ghost use Rattle.std.specs.Prelude.{◌≡◌, ◌^◌, map, slice_get};
ghost use Rattle.std.specs.Option.{option_map};
ghost use Rattle.ecf_faults.specs.Tables.{number_below};
ghost use Rattle.ecf_faults.specs.Expressions.{referent_faults, referent_type, referent_form, map_faults, key_type, value_type, map_number, method_number, answer_type, arity_faults, parameter_types};
ghost use Rattle.ecf_faults.specs.Statements.{assignee_faults, assignee_type, assignee_form};
ghost use Rattle.ecf_faults.specs.Least.{least_with};
ghost use Rattle.ecf_typing.specs.Views.{signature_view};

use crate::least::FirstFault;
use ecf_faults::{Referent, What};
use ecf_lang::tree::{Param, Ty};
use ecf_lang::typed::{Assignee, FieldKind, Place, TypedExpr};

/// A method's name by number, and the types of its first method in the file.
#[derive(Clone, Copy)]
pub(crate) struct MethodTypes<'a> {
    pub(crate) number: usize,
    pub(crate) params: &'a [Param],
    pub(crate) answer: Ty,
}

pub(crate) fn byte(n: usize) -> u8
    ensures { result ≡ number_below (2 ^ 8) n }
{
    u8::try_from(n).unwrap_or(0)
}

fn two_bytes(n: usize) -> u16
    ensures { result ≡ number_below (2 ^ 16) n }
{
    u16::try_from(n).unwrap_or(0)
}

pub(crate) fn note_referent(at: u32, referent: Referent, faults: &mut FirstFault)
    ensures { faults.new.first ≡ least_with faults.old.first (referent_faults at referent) }
{
    match referent {
        Referent::Map => faults.note(at, What::Misused),
        Referent::Nothing => faults.note(at, What::UnknownName),
        Referent::Local(_, _) | Referent::Field(_, _) | Referent::Object(_) => {}
    }
}

pub(crate) fn referent_type(referent: Referent) -> Option<Ty>
    ensures { result ≡ referent_type referent }
{
    match referent {
        Referent::Local(_, ty) | Referent::Field(_, ty) => Some(ty),
        Referent::Object(_) => Some(Ty::Addr),
        Referent::Map | Referent::Nothing => None,
    }
}

pub(crate) fn referent_form(referent: Referent) -> TypedExpr
    ensures { result ≡ referent_form referent }
{
    let place = match referent {
        Referent::Local(number, _) => Place::Local(number),
        Referent::Field(number, _) => Place::Plain(number),
        Referent::Object(number) => Place::Object(number),
        Referent::Map | Referent::Nothing => Place::Object(0),
    };
    TypedExpr::Name { place }
}

pub(crate) fn note_assignee(at: u32, left: Referent, faults: &mut FirstFault)
    ensures { faults.new.first ≡ least_with faults.old.first (assignee_faults at left) }
{
    match left {
        Referent::Object(_) | Referent::Map => faults.note(at, What::Misused),
        Referent::Nothing => faults.note(at, What::UnknownName),
        Referent::Local(_, _) | Referent::Field(_, _) => {}
    }
}

pub(crate) fn assignee_type(left: Referent) -> Option<Ty>
    ensures { result ≡ assignee_type left }
{
    match left {
        Referent::Local(_, ty) | Referent::Field(_, ty) => Some(ty),
        Referent::Object(_) | Referent::Map | Referent::Nothing => None,
    }
}

pub(crate) fn assignee_form(left: Referent) -> Assignee
    ensures { result ≡ assignee_form left }
{
    match left {
        Referent::Local(number, _) => Assignee::Local(number),
        Referent::Field(number, _) => Assignee::Plain(number),
        Referent::Object(_) | Referent::Map | Referent::Nothing => Assignee::Local(0),
    }
}

pub(crate) fn note_map(at: u32, own: Option<(usize, FieldKind)>, faults: &mut FirstFault)
    ensures { faults.new.first ≡ least_with faults.old.first (map_faults at own) }
{
    match own {
        None => faults.note(at, What::UnknownName),
        Some((_, kind)) => match kind {
            FieldKind::Plain(_) => faults.note(at, What::Misused),
            FieldKind::Map(_, _) => {}
        },
    }
}

pub(crate) fn key_type(own: Option<(usize, FieldKind)>) -> Option<Ty>
    ensures { result ≡ key_type own }
{
    match own?.1 {
        FieldKind::Plain(_) => None,
        FieldKind::Map(key, _) => Some(key),
    }
}

pub(crate) fn value_type(own: Option<(usize, FieldKind)>) -> Option<Ty>
    ensures { result ≡ value_type own }
{
    match own?.1 {
        FieldKind::Plain(_) => None,
        FieldKind::Map(_, value) => Some(value),
    }
}

pub(crate) fn map_number(own: Option<(usize, FieldKind)>) -> u8
    ensures { result ≡ map_number own }
{
    match own {
        None => 0,
        Some((number, _)) => byte(number),
    }
}

pub(crate) fn method_number(method: Option<MethodTypes<'_>>) -> u16
    ensures { result ≡ method_number (option_map signature_view method.entry) }
{
    match method {
        None => 0,
        Some(method) => two_bytes(method.number),
    }
}

pub(crate) fn answer_type(method: Option<MethodTypes<'_>>) -> Option<Ty>
    ensures { result ≡ answer_type (option_map signature_view method.entry) }
{
    match method {
        None => None,
        Some(method) => Some(method.answer),
    }
}

/// Notes a method that isn't found or takes another number of arguments, and gives the parameters whose types the
/// arguments need.
pub(crate) fn note_arity<'b>(
    name_at: u32,
    method: Option<MethodTypes<'b>>,
    count: usize,
    faults: &mut FirstFault,
) -> &'b [Param]
    ensures params { map (λ param. param.ty) result.now ≡ parameter_types (option_map signature_view method.entry) count }
    ensures faults { faults.new.first ≡ least_with faults.old.first (arity_faults name_at (option_map signature_view method.entry) count) }
{
    match method {
        None => {
            faults.note(name_at, What::UnknownMethod);
            &[]
        }
        Some(method) => {
            if count == method.params.len() {
                method.params
            } else {
                faults.note(name_at, What::WrongArity);
                &[]
            }
        }
    }
}

pub(crate) fn param_type(params: &[Param], i: usize) -> Option<Ty>
    ensures { result ≡ slice_get (map (λ param. param.ty) params.now) i }
{
    Some(params.get(i)?.ty)
}
