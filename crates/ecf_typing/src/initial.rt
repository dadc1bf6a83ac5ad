//! Initial values and keys.

ghost use Rattle.std.specs.Prelude.{◌≡◌, ℕ, ◌==◌, ◌∷◌, map, [], IfOk, OnOk, Some, if◌then◌else◌};
ghost use Rattle.std.specs.List.{flat_map, list_any};
ghost use Rattle.ecf_lang.specs.declared.tree.Member.TheVariants as tree;
ghost use Rattle.ecf_faults.specs.Declarations.{name_report, const_report, is_type, key_faults, pair_faults, member_faults, field_form};
ghost use Rattle.ecf_faults.specs.Least.{least_with};
ghost use Rattle.ecf_typing.specs.Views.{view_of};
ghost use Rattle.ecf_typing.specs.Summaries.{summary_of, SummarizesFor};

use crate::expression::Surroundings;
use crate::form::Summary;
use crate::least::{FirstFault, differ};
use ecf_faults::What;
use ecf_lang::name::Name;
use ecf_lang::tree::{Const, Ty};
use ecf_lang::typed::{FieldKind, TypedField};
use indexmap::IndexSet;
use sqlite_items::Items;
use std::alloc::{AllocError, Global};

/// What is known of an initial value or key but its faults.
fn const_summary(around: &Surroundings<'_>, value: &Const) -> Summary<u128>
    ensures { result ≡ summary_of (const_report (view_of around.now).objects value.now) }
{
    match value {
        Const::Number { at, value } => Summary {
            place: *at,
            ty: Some(Ty::Num),
            form: *value,
        },
        Const::Flag { at, value } => Summary {
            place: *at,
            ty: Some(Ty::Flag),
            form: u128::from(*value),
        },
        Const::Name { at, name } => object_summary(*at, around.objects.get(name.as_bytes())),
    }
}

fn object_summary(at: u32, object: Option<(usize, u32)>) -> Summary<u128>
    ensures { result ≡ summary_of (name_report at object) }
{
    match object {
        None => Summary {
            place: at,
            ty: None,
            form: 0,
        },
        Some((object, _)) => Summary {
            place: at,
            ty: Some(Ty::Addr),
            form: object as u128,
        },
    }
}

/// An initial value or key of which a type is required.
fn initial(
    around: &Surroundings<'_>,
    want: Ty,
    value: &Const,
    faults: &mut FirstFault,
) -> Summary<u128>
    ensures { SummarizesFor (Some want) (const_report (view_of around.now).objects value.now) faults.old.first faults.new.first result }
{
    let summary = const_summary(around, value);
    faults.note_if(summary.ty.is_none(), summary.place, What::UnknownName);
    faults.note_type(Some(want), summary.ty, summary.place);
    summary
}

fn is_type(ty: Ty, has: Option<Ty>) -> bool
    ensures { result ≡ is_type ty has }
{
    match has {
        None => false,
        Some(has) => !differ(ty, has),
    }
}

/// A fault where a key of the right type has the value of an earlier one. Such a key's value is among the earlier ones from then on.
fn note_key(
    around: &Surroundings<'_>,
    ty: Ty,
    key: &Const,
    earlier: &mut IndexSet<u128>,
    faults: &mut FirstFault,
) -> Result<(), AllocError>
    ensures faults { let report = const_report (view_of around.now).objects key.now in
        OnOk result (faults.new.first ≡ least_with faults.old.first (key_faults ty earlier.old.keys (report ∷ []))) }
    ensures earlier { let report = const_report (view_of around.now).objects key.now in
        let with = if is_type ty report.ty then report.form ∷ earlier.old.keys else earlier.old.keys in
        OnOk result ((k : ℕ) → list_any (λ value. k == value) earlier.new.keys ≡ list_any (λ value. k == value) with) }
{
    let key = const_summary(around, key);
    if !is_type(ty, key.ty) {
        return Ok(());
    }
    let is_new = earlier.insert(key.form)?;
    faults.note_if(!is_new, key.place, What::TwoKeys);
    Ok(())
}

/// A fault at each initial key that has the value of an earlier one.
fn note_keys(
    alloc: Global,
    around: &Surroundings<'_>,
    ty: Ty,
    first: &[(Const, Const)],
    faults: &mut FirstFault,
) -> Result<(), AllocError>
    ensures { let keys = map (λ pair. const_report (view_of around.now).objects pair.0) first.now in
        OnOk result (faults.new.first ≡ least_with faults.old.first (key_faults ty [] keys)) }
{
    let mut earlier = IndexSet::new(alloc);
    for (key, _) in first {
        note_key(around, ty, key, &mut earlier, faults)?;
    }
    Ok(())
}

/// A plain field with its initial value.
pub(crate) fn plain_field(
    alloc: Global,
    around: &Surroundings<'_>,
    name: &Name,
    ty: Ty,
    first: &Option<Const>,
    faults: &mut FirstFault,
) -> Result<TypedField, AllocError>
    ensures form { IfOk result (λ made. (at : ℕ) → field_form (view_of around.now) (tree.Field at name.now ty first.now) ≡ Some made) }
    ensures faults { OnOk result ((at : ℕ) → let own = member_faults (view_of around.now) (tree.Field at name.now ty first.now) in
        faults.new.first ≡ least_with faults.old.first own) }
{
    let name = Name::from_slice(alloc, name.as_bytes())?;
    let kind = FieldKind::Plain(ty);
    let mut pairs = Items::new(alloc);
    match first {
        None => Ok(TypedField {
            name,
            kind,
            first: pairs,
        }),
        Some(first) => {
            pairs.push((0, initial(around, ty, first, faults).form))?;
            Ok(TypedField {
                name,
                kind,
                first: pairs,
            })
        }
    }
}

/// The initial pairs of a map.
fn pairs(
    alloc: Global,
    around: &Surroundings<'_>,
    key: Ty,
    value: Ty,
    first: &[(Const, Const)],
    faults: &mut FirstFault,
) -> Result<Items<(u128, u128)>, AllocError>
    ensures form { let objects = (view_of around.now).objects in
        IfOk result (λ made. made ≡ map (λ pair. ((const_report objects pair.0).form, (const_report objects pair.1).form)) first.now) }
    ensures faults { let all = flat_map (pair_faults (view_of around.now) key value) first.now in
        OnOk result (faults.new.first ≡ least_with faults.old.first all) }
{
    let mut made = Items::new(alloc);
    for (first_key, first_value) in first {
        let first_key = initial(around, key, first_key, faults);
        let first_value = initial(around, value, first_value, faults);
        made.push((first_key.form, first_value.form))?;
    }
    Ok(made)
}

/// A map with its initial pairs.
pub(crate) fn map_field(
    alloc: Global,
    around: &Surroundings<'_>,
    name: &Name,
    key: Ty,
    value: Ty,
    first: &[(Const, Const)],
    faults: &mut FirstFault,
) -> Result<TypedField, AllocError>
    ensures form { IfOk result (λ made. (at : ℕ) → field_form (view_of around.now) (tree.Map at name.now key value first.now) ≡ Some made) }
    ensures faults { OnOk result ((at : ℕ) → let own = member_faults (view_of around.now) (tree.Map at name.now key value first.now) in
        faults.new.first ≡ least_with faults.old.first own) }
{
    let pairs = pairs(alloc, around, key, value, first, faults)?;
    note_keys(alloc, around, key, first, faults)?;
    Ok(TypedField {
        name: Name::from_slice(alloc, name.as_bytes())?,
        kind: FieldKind::Map(key, value),
        first: pairs,
    })
}
