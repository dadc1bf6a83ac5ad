//! The store of a contract before its first transaction.

ghost use Rattle.std.specs.Prelude.{◌≡◌, length, IfOk};
ghost use Rattle.ecf_heap.specs.Numbered.{IsWithinLimits};

use crate::heaps::cells_of;
use ecf_heap::genesis;
use ecf_lang::name::Name;
use ecf_lang::tree::Ty;
use ecf_lang::typed::{FieldKind, Typed, TypedField, TypedObject};
use sqlite_items::Items;
use std::alloc::{AllocError, Global};
use std::test::Fail;

fn field(alloc: Global, kind: FieldKind, pairs: &[(u128, u128)]) -> Result<TypedField, AllocError> {
    let mut first = Items::new(alloc);
    for pair in pairs {
        first.push(*pair)?;
    }
    Ok(TypedField {
        name: Name::from_vec(Vec::new(alloc)),
        kind,
        first,
    })
}

/// An object of a plain field and a map, with these initial pairs.
fn object(
    alloc: Global,
    plain: &[(u128, u128)],
    map: &[(u128, u128)],
) -> Result<TypedObject, AllocError>
    ensures { IfOk result (λ object. length object.fields ≡ 2) }
{
    let mut fields = Items::new(alloc);
    fields.push(field(alloc, FieldKind::Plain(Ty::Num), plain)?)?;
    fields.push(field(alloc, FieldKind::Map(Ty::Num, Ty::Num), map)?)?;
    Ok(TypedObject {
        name: Name::from_vec(Vec::new(alloc)),
        fields,
        methods: Items::new(alloc),
    })
}

/// A contract of two objects without methods.
fn contract(alloc: Global, first: TypedObject, second: TypedObject) -> Result<Typed, AllocError>
    requires first { length first.fields ≡ 2 }
    requires second { length second.fields ≡ 2 }
    ensures { IfOk result IsWithinLimits }
{
    let mut objects = Items::new(alloc);
    objects.push(first)?;
    objects.push(second)?;
    Ok(Typed {
        objects,
        names: Items::new(alloc),
        signatures: Items::new(alloc),
    })
}

/// The initial cells of a contract whose first object has two pairs in its map, and whose second has a number and a zero.
fn initial_cells(alloc: Global) -> Result<String, AllocError> {
    let first = object(alloc, &[], &[(7, 1), (2, 5)])?;
    let second = object(alloc, &[(0, 100)], &[(1, 0)])?;
    let typed = contract(alloc, first, second)?;
    cells_of(alloc, &genesis(alloc, &typed)?)
}

#[test]
fn initial_values_are_the_first_store(rt: HostRuntime) -> Result<(), Fail> {
    let cells = initial_cells(rt.alloc())?;
    assert_eq!(rt; cells.as_str(), "0.1.2=5 0.1.7=1 1.0.0=100 ");
    Ok(())
}
