//! Methods, the members of an object, and whole objects.

ghost use Rattle.std.specs.Prelude.{◌≡◌, ◌∷◌, ◌++◌, map, [], IfOk, OnOk};
ghost use Rattle.std.specs.List.{flat_map, filter_map};
ghost use Rattle.std.specs.Option.{option_map};
ghost use Rattle.ecf_lang.specs.declared.limits.TheConstants.{MAX_FIELDS, MAX_METHODS};
ghost use Rattle.ecf_faults.specs.declared.What.TheVariants as what;
ghost use Rattle.ecf_faults.specs.Tables.{table_of};
ghost use Rattle.ecf_faults.specs.Declarations.{lists_differ, signature_of, signature_faults, member_faults, field_form, method_form, object_form, object_faults, parameter_faults, body_passage, no_locals};
ghost use Rattle.ecf_faults.specs.Declarations.{repeat_faults, excess_faults, field_declaration, method_declaration};
ghost use Rattle.ecf_faults.specs.Least.{least_with};
ghost use Rattle.ecf_typing.specs.Views.{contents_of, signature_view, view_of, within};

use crate::declaration::{Sort, note_members, note_members_past, own_fields};
use crate::expression::Surroundings;
use crate::initial::{map_field, plain_field};
use crate::least::{FirstFault, differ};
use crate::names::NameMap;
use crate::reference::{MethodTypes, method_number};
use crate::statement::{BodyCheck, Setting};
use ecf_faults::What;
use ecf_lang::limits::{MAX_FIELDS, MAX_METHODS};
use ecf_lang::name::Name;
use ecf_lang::tree::{Block, Member, ObjectDecl, Param, Ty};
use ecf_lang::typed::{TypedBlock, TypedMethod, TypedObject};
use sqlite_items::Items;
use std::alloc::{AllocError, Global};

// ---- methods

fn lists_differ(a: &[Param], b: &[Param]) -> bool
    ensures { result ≡ lists_differ (map (λ param. param.ty) a.now) (map (λ param. param.ty) b.now) }
{
    if a.len() != b.len() {
        return true;
    }
    for (i, param) in a.iter().enumerate() {
        if differ(param.ty, b[i].ty) {
            return true;
        }
    }
    false
}

/// A fault where the types of a method differ from those of the first of its name.
fn note_signature(
    at: u32,
    params: &[Param],
    answer: Ty,
    first: Option<MethodTypes<'_>>,
    faults: &mut FirstFault,
)
    ensures { let own = signature_faults at (signature_of params.now answer) (option_map signature_view first.entry) in
        faults.new.first ≡ least_with faults.old.first own }
{
    match first {
        None => {}
        Some(first) => {
            let differs = differ(answer, first.answer) || lists_differ(params, first.params);
            faults.note_if(differs, at, What::TwoSignatures);
        }
    }
}

/// How many locals a method has, and its body.
fn body<'a>(
    alloc: Global,
    setting: &Setting<'_, 'a>,
    params: &'a [Param],
    body: &'a Block,
    faults: &mut FirstFault,
) -> Result<(u8, TypedBlock), AllocError>
    ensures form { let passage = body_passage (view_of setting.now.around.now) params.now setting.now.answer body.now in
        IfOk result (λ made. made ≡ (passage.after.next, passage.form)) }
    ensures faults { let passage = body_passage (view_of setting.now.around.now) params.now setting.now.answer body.now in
        OnOk result (faults.new.first ≡ least_with faults.old.first (parameter_faults no_locals params.now ++ passage.faults)) }
{
    let mut check = BodyCheck {
        visible: NameMap::new(alloc),
        next: 0,
        faults: FirstFault {
            first: faults.first,
        },
    };
    check.parameters(params)?;
    let body = check.block(alloc, setting, body)?;
    faults.first = check.faults.first;
    Ok((check.next, body))
}

// ---- objects

/// Adds a member to an object, whose names are looked up in these surroundings.
fn add_member<'a>(
    alloc: Global,
    around: &Surroundings<'a>,
    member: &'a Member,
    made: &mut TypedObject,
    faults: &mut FirstFault,
) -> Result<(), AllocError>
    ensures fields { let own = filter_map (field_form (view_of around.now)) (member.now ∷ []) in
        OnOk result (made.new.fields ≡ made.old.fields ++ own) }
    ensures methods { let own = filter_map (method_form (view_of around.now)) (member.now ∷ []) in
        OnOk result (made.new.methods ≡ made.old.methods ++ own) }
    ensures name { OnOk result (made.new.name ≡ made.old.name) }
    ensures faults { let own = member_faults (view_of around.now) member.now in
        OnOk result (faults.new.first ≡ least_with faults.old.first own) }
{
    match member {
        Member::Field {
            name,
            ty,
            first,
            ..
        } => {
            let field = plain_field(alloc, around, name, *ty, first, faults)?;
            made.fields.push(field)?;
            Ok(())
        }
        Member::Map {
            name,
            key,
            value,
            first,
            ..
        } => {
            let field = map_field(alloc, around, name, *key, *value, first.as_slice(), faults)?;
            made.fields.push(field)?;
            Ok(())
        }
        Member::Method {
            at,
            name,
            params,
            answer,
            body: block,
        } => {
            let types = around.signatures.get(name.as_bytes());
            note_signature(*at, params.as_slice(), *answer, types, faults);
            let setting = Setting {
                around,
                answer: *answer,
            };
            let (locals, body) = body(alloc, &setting, params.as_slice(), block, faults)?;
            made.methods.push(TypedMethod {
                name: method_number(types),
                locals,
                body,
            })?;
            Ok(())
        }
    }
}

/// An object with its members.
fn members<'a>(
    alloc: Global,
    around: &Surroundings<'a>,
    object: &'a ObjectDecl,
    faults: &mut FirstFault,
) -> Result<TypedObject, AllocError>
    ensures form { IfOk result (λ made. made ≡ object_form (view_of around.now) object.now) }
    ensures faults { let all = flat_map (member_faults (view_of around.now)) object.now.members in
        OnOk result (faults.new.first ≡ least_with faults.old.first all) }
{
    let mut made = TypedObject {
        name: Name::from_slice(alloc, object.name.as_bytes())?,
        fields: Items::new(alloc),
        methods: Items::new(alloc),
    };
    for member in object.members.as_slice() {
        add_member(alloc, around, member, &mut made, faults)?;
    }
    Ok(made)
}

/// Faults among the names that an object declares. Answers its methods by number.
fn note_declared<'a>(
    alloc: Global,
    members: &'a [Member],
    faults: &mut FirstFault,
) -> Result<NameMap<'a, (usize, u32)>, AllocError>
    ensures methods { IfOk result (λ table. contents_of table ≡ table_of (filter_map method_declaration members.now)) }
    ensures faults { let fields = filter_map field_declaration members.now in
        let methods = filter_map method_declaration members.now in
        OnOk result (faults.new.first ≡ least_with faults.old.first
        (repeat_faults what.TwoFields [] fields ++ repeat_faults what.TwoMethods [] methods
        ++ excess_faults what.TooManyMembers MAX_FIELDS fields ++ excess_faults what.TooManyMembers MAX_METHODS methods)) }
{
    note_members(alloc, Sort::Fields, What::TwoFields, members, faults)?;
    let methods = note_members(alloc, Sort::Methods, What::TwoMethods, members, faults)?;
    note_members_past(Sort::Fields, MAX_FIELDS, members, faults);
    note_members_past(Sort::Methods, MAX_METHODS, members, faults);
    Ok(methods)
}

/// The numbered form of an object. The own names in the surroundings become those of this object.
pub(crate) fn object<'a>(
    alloc: Global,
    around: &mut Surroundings<'a>,
    object: &'a ObjectDecl,
    faults: &mut FirstFault,
) -> Result<TypedObject, AllocError>
    ensures form { let whole = within (view_of around.old) object.now in
        IfOk result (λ made. made ≡ object_form whole object.now) }
    ensures faults { let whole = within (view_of around.old) object.now in
        OnOk result (faults.new.first ≡ least_with faults.old.first (object_faults whole object.now.members)) }
    ensures around { OnOk result (view_of around.new ≡ within (view_of around.old) object.now) }
{
    let methods = note_declared(alloc, object.members.as_slice(), faults)?;
    let own = own_fields(alloc, object.members.as_slice())?;
    around.methods = methods;
    around.own = own;
    members(alloc, around, object, faults)
}
