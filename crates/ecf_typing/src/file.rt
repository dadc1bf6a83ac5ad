//! The check of a whole contract file.

ghost use Rattle.std.specs.Prelude.{◌≡◌, map, IfOk, OnOk};
ghost use Rattle.std.specs.List.{flat_map};
ghost use Rattle.ecf_faults.specs.Declarations.{object_table, signature_table, surroundings_of, object_form, object_faults, faults_of_tree, numbered_form};
ghost use Rattle.ecf_faults.specs.Least.{least_with};
ghost use Rattle.ecf_typing.specs.Views.{contents_of, signature_view, view_of};
ghost use Rattle.ecf_typing.specs.Checks.{Checks};

use crate::declaration::{note_objects, note_objects_past, signatures};
use crate::expression::Surroundings;
use crate::least::FirstFault;
use crate::member::object;
use crate::names::NameMap;
use crate::reference::MethodTypes;
use ecf_faults::{What, least_is_left};
use ecf_lang::name::Name;
use ecf_lang::tree::Tree;
use ecf_lang::typed::{Signature, Typed, TypedObject};
use sqlite_items::Items;
use std::alloc::{AllocError, Global};
use thiserror::Error;

/// Why a contract file isn't accepted for its names and types.
#[derive(Clone, Copy, Debug, PartialEq, Eq, Error)]
pub enum TypeFault {
    /// The first fault, by its token.
    #[error("token {token}: {what:?}")]
    At { token: u32, what: What },
    #[error("out of memory")]
    NoMemory,
}

/// The names in a table, in their order.
fn names(alloc: Global, table: &NameMap<'_, MethodTypes<'_>>) -> Result<Items<Name>, AllocError>
    ensures { IfOk result (λ made. made ≡ map (λ one. one.0) (contents_of table.now)) }
{
    let mut made = Items::new(alloc);
    for i in 0..table.len() {
        let entry = table.at(i);
        made.push(Name::from_slice(alloc, entry.0)?)?;
    }
    Ok(made)
}

/// The signatures in a table, in their order.
fn types(
    alloc: Global,
    table: &NameMap<'_, MethodTypes<'_>>,
) -> Result<Items<Signature>, AllocError>
    ensures { IfOk result (λ made. made ≡ map (λ one. (signature_view one.1).1) (contents_of table.now)) }
{
    let mut made = Items::new(alloc);
    for i in 0..table.len() {
        let entry = table.at(i);
        made.push(signature(alloc, entry.1)?)?;
    }
    Ok(made)
}

fn signature(alloc: Global, method: MethodTypes<'_>) -> Result<Signature, AllocError>
    ensures { IfOk result (λ made. made ≡ (signature_view method.entry).1) }
{
    let mut params = Items::new(alloc);
    for param in method.params {
        params.push(param.ty)?;
    }
    Ok(Signature {
        params,
        answer: method.answer,
    })
}

/// The objects of a file, in the surroundings of its tables.
fn objects<'a>(
    alloc: Global,
    tree: &'a Tree,
    around: &mut Surroundings<'a>,
    faults: &mut FirstFault,
) -> Result<Items<TypedObject>, AllocError>
    requires objects { (view_of around.old).objects ≡ object_table tree.now }
    requires signatures { (view_of around.old).signatures ≡ signature_table tree.now }
    ensures form { let form = map (λ object. object_form (surroundings_of tree.now object) object) tree.now.objects in
        IfOk result (λ made. made ≡ form) }
    ensures faults { let all = flat_map (λ object. object_faults (surroundings_of tree.now object) object.members) tree.now.objects in
        OnOk result (faults.new.first ≡ least_with faults.old.first all) }
{
    let mut made = Items::new(alloc);
    for declared in tree.objects.as_slice() {
        made.push(object(alloc, around, declared, faults)?)?;
    }
    Ok(made)
}

/// All faults of a contract file, and its numbered form.
fn typed(alloc: Global, tree: &Tree, faults: &mut FirstFault) -> Result<Typed, AllocError>
    ensures form { IfOk result (λ typed. typed ≡ numbered_form tree.now) }
    ensures faults { OnOk result (faults.new.first ≡ least_with faults.old.first (faults_of_tree tree.now)) }
{
    let table = note_objects(alloc, tree.objects.as_slice(), faults)?;
    note_objects_past(tree.objects.as_slice(), faults);
    let signatures = signatures(alloc, tree)?;
    let names = names(alloc, &signatures)?;
    let types = types(alloc, &signatures)?;
    let mut around = Surroundings {
        objects: table,
        signatures,
        own: NameMap::new(alloc),
        methods: NameMap::new(alloc),
    };
    let made = objects(alloc, tree, &mut around, faults)?;
    Ok(Typed {
        objects: made,
        names,
        signatures: types,
    })
}

/// The numbered form of a contract file whose names and types are in order, else its first fault.
pub fn check(alloc: Global, tree: &Tree) -> Result<Typed, TypeFault>
    ensures { Checks (faults_of_tree tree.now) (numbered_form tree.now) result }
{
    least_is_left();
    let mut faults = FirstFault { first: None };
    let Ok(typed) = typed(alloc, tree, &mut faults) else {
        return Err(TypeFault::NoMemory);
    };
    match faults.first {
        None => Ok(typed),
        Some(first) => Err(TypeFault::At {
            token: first.token,
            what: first.what,
        }),
    }
}
