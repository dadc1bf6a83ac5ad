//! Declarations outside of methods: names that stand twice, declarations past a limit, and the tables in which the check of
//! methods looks names up.

ghost use Rattle.std.specs.Prelude.{◌≡◌, ◌-◌, ◌==◌, ◌∷◌, map, length, [], IfOk, OnOk, is_some};
ghost use Rattle.std.specs.List.{filter_map, fold};
ghost use Rattle.std.specs.Option.{option_map};
ghost use Rattle.ecf_lang.specs.declared.limits.TheConstants.{MAX_OBJECTS};
ghost use Rattle.ecf_faults.specs.declared.What.TheVariants as what;
ghost use Rattle.ecf_faults.specs.Tables.{declaration_of, table_of, with_next};
ghost use Rattle.ecf_faults.specs.Expressions.{fault_if};
ghost use Rattle.ecf_faults.specs.Declarations.{repeat_faults, excess_faults, object_declaration, field_kind, method_signature, signature_table};
ghost use Rattle.ecf_faults.specs.Least.{least_with};
ghost use Rattle.ecf_typing.specs.Views.{contents_of, signatures_of};
ghost use Rattle.ecf_typing.specs.Sorts.{declaration_in};

use crate::least::FirstFault;
use crate::names::NameMap;
use crate::reference::MethodTypes;
use ecf_faults::What;
use ecf_lang::limits::MAX_OBJECTS;
use ecf_lang::name::Name;
use ecf_lang::tree::{Member, ObjectDecl, Tree};
use ecf_lang::typed::FieldKind;
use std::alloc::{AllocError, Global};

/// Which members are meant: fields and maps, or methods.
#[derive(Clone, Copy)]
pub(crate) enum Sort {
    Fields,
    Methods,
}

/// The name and token of what a member declares, if it is of this sort.
fn declaration_in(sort: Sort, member: &Member) -> Option<(&Name, u32)>
    ensures { option_map (λ d. (d.0.now, d.1)) result ≡ declaration_in sort member.now }
{
    match member {
        Member::Field { at, name, .. } | Member::Map { at, name, .. } => match sort {
            Sort::Fields => Some((name, *at)),
            Sort::Methods => None,
        },
        Member::Method { at, name, .. } => match sort {
            Sort::Fields => None,
            Sort::Methods => Some((name, *at)),
        },
    }
}

// ---- names that stand twice

/// Adds a declaration to a table of names by number and token, with a fault where its name is there.
fn note_declaration<'a>(
    table: &mut NameMap<'a, (usize, u32)>,
    what: What,
    name: &'a Name,
    at: u32,
    faults: &mut FirstFault,
) -> Result<(), AllocError>
    ensures table { OnOk result (contents_of table.new ≡ with_next (contents_of table.old) (name.now, at)) }
    ensures faults { let known = is_some (declaration_of (contents_of table.old) name.now) in
        OnOk result (faults.new.first ≡ least_with faults.old.first (fault_if known at what)) }
{
    let known = table.get(name.as_bytes()).is_some();
    faults.note_if(known, at, what);
    table.declare_next(name.as_bytes(), at)
}

/// The same of a member, if it is of this sort.
fn note_member<'a>(
    table: &mut NameMap<'a, (usize, u32)>,
    sort: Sort,
    what: What,
    member: &'a Member,
    faults: &mut FirstFault,
) -> Result<(), AllocError>
    ensures table { let own = filter_map (declaration_in sort) (member.now ∷ []) in
        OnOk result (contents_of table.new ≡ fold with_next (contents_of table.old) own) }
    ensures faults { let own = filter_map (declaration_in sort) (member.now ∷ []) in
        OnOk result (faults.new.first ≡ least_with faults.old.first (repeat_faults what (contents_of table.old) own)) }
{
    match declaration_in(sort, member) {
        None => Ok(()),
        Some((name, at)) => note_declaration(table, what, name, at, faults),
    }
}

/// The objects of a file by number, with a fault at each name that stands earlier.
pub(crate) fn note_objects<'a>(
    alloc: Global,
    objects: &'a [ObjectDecl],
    faults: &mut FirstFault,
) -> Result<NameMap<'a, (usize, u32)>, AllocError>
    ensures table { IfOk result (λ table. contents_of table ≡ table_of (map object_declaration objects.now)) }
    ensures faults { let all = map object_declaration objects.now in
        OnOk result (faults.new.first ≡ least_with faults.old.first (repeat_faults what.TwoObjects [] all)) }
{
    let mut table = NameMap::new(alloc);
    for object in objects {
        note_declaration(
            &mut table,
            What::TwoObjects,
            &object.name,
            object.at,
            faults,
        )?;
    }
    Ok(table)
}

/// The members of a sort by number, with a fault at each name that stands earlier.
pub(crate) fn note_members<'a>(
    alloc: Global,
    sort: Sort,
    what: What,
    members: &'a [Member],
    faults: &mut FirstFault,
) -> Result<NameMap<'a, (usize, u32)>, AllocError>
    ensures table { IfOk result (λ table. contents_of table ≡ table_of (filter_map (declaration_in sort) members.now)) }
    ensures faults { let all = filter_map (declaration_in sort) members.now in
        OnOk result (faults.new.first ≡ least_with faults.old.first (repeat_faults what [] all)) }
{
    let mut table = NameMap::new(alloc);
    for member in members {
        note_member(&mut table, sort, what, member, faults)?;
    }
    Ok(table)
}

// ---- declarations past a limit

/// Takes a place for a declaration, with a fault where none is left. Answers how many are left behind it.
fn note_place(room: usize, what: What, at: u32, faults: &mut FirstFault) -> usize
    ensures room { result ≡ room - 1 }
    ensures faults { faults.new.first ≡ least_with faults.old.first (fault_if (room == 0) at what) }
{
    faults.note_if(room == 0, at, what);
    room.saturating_sub(1)
}

/// The same for a member, if it is of this sort.
fn note_member_place(sort: Sort, room: usize, member: &Member, faults: &mut FirstFault) -> usize
    ensures room { result ≡ room - length (filter_map (declaration_in sort) (member.now ∷ [])) }
    ensures faults { let own = filter_map (declaration_in sort) (member.now ∷ []) in
        faults.new.first ≡ least_with faults.old.first (excess_faults what.TooManyMembers room own) }
{
    match declaration_in(sort, member) {
        None => room,
        Some((_, at)) => note_place(room, What::TooManyMembers, at, faults),
    }
}

/// A fault at each object past the limit.
pub(crate) fn note_objects_past(objects: &[ObjectDecl], faults: &mut FirstFault)
    ensures { let all = map object_declaration objects.now in
        faults.new.first ≡ least_with faults.old.first (excess_faults what.TooManyObjects MAX_OBJECTS all) }
{
    let mut room = MAX_OBJECTS;
    for object in objects {
        room = note_place(room, What::TooManyObjects, object.at, faults);
    }
}

/// A fault at each member of a sort past a limit.
pub(crate) fn note_members_past(
    sort: Sort,
    limit: usize,
    members: &[Member],
    faults: &mut FirstFault,
)
    ensures { let all = filter_map (declaration_in sort) members.now in
        faults.new.first ≡ least_with faults.old.first (excess_faults what.TooManyMembers limit all) }
{
    let mut room = limit;
    for member in members {
        room = note_member_place(sort, room, member, faults);
    }
}

// ---- tables

/// Adds a field or map with what it holds.
fn declare_field<'a>(
    table: &mut NameMap<'a, (usize, FieldKind)>,
    member: &'a Member,
) -> Result<(), AllocError>
    ensures { OnOk result (contents_of table.new ≡ fold with_next (contents_of table.old) (filter_map field_kind (member.now ∷ []))) }
{
    match member {
        Member::Field { name, ty, .. } => {
            table.declare_next(name.as_bytes(), FieldKind::Plain(*ty))
        }
        Member::Map {
            name,
            key,
            value,
            ..
        } => table.declare_next(name.as_bytes(), FieldKind::Map(*key, *value)),
        Member::Method { .. } => Ok(()),
    }
}

/// The fields and maps of an object by number, with what each holds.
pub(crate) fn own_fields<'a>(
    alloc: Global,
    members: &'a [Member],
) -> Result<NameMap<'a, (usize, FieldKind)>, AllocError>
    ensures { IfOk result (λ table. contents_of table ≡ table_of (filter_map field_kind members.now)) }
{
    let mut table = NameMap::new(alloc);
    for member in members {
        declare_field(&mut table, member)?;
    }
    Ok(table)
}

/// Adds a method with its types.
fn declare_method<'a>(
    table: &mut NameMap<'a, MethodTypes<'a>>,
    member: &'a Member,
) -> Result<(), AllocError>
    ensures { OnOk result (signatures_of table.new ≡ fold with_next (signatures_of table.old) (filter_map method_signature (member.now ∷ []))) }
{
    match member {
        Member::Field { .. } | Member::Map { .. } => Ok(()),
        Member::Method {
            name,
            params,
            answer,
            ..
        } => {
            let types = MethodTypes {
                number: table.len(),
                params: params.as_slice(),
                answer: *answer,
            };
            table.declare(name.as_bytes(), types)
        }
    }
}

/// Adds the methods of an object.
fn declare_methods<'a>(
    table: &mut NameMap<'a, MethodTypes<'a>>,
    members: &'a [Member],
) -> Result<(), AllocError>
    ensures { let all = filter_map method_signature members.now in
        OnOk result (signatures_of table.new ≡ fold with_next (signatures_of table.old) all) }
{
    for member in members {
        declare_method(table, member)?;
    }
    Ok(())
}

/// The method names of a file by number, with the types of the first method of each.
pub(crate) fn signatures<'a>(
    alloc: Global,
    tree: &'a Tree,
) -> Result<NameMap<'a, MethodTypes<'a>>, AllocError>
    ensures { IfOk result (λ table. signatures_of table ≡ signature_table tree.now) }
{
    let mut table = NameMap::new(alloc);
    for object in tree.objects.as_slice() {
        declare_methods(&mut table, object.members.as_slice())?;
    }
    Ok(table)
}
