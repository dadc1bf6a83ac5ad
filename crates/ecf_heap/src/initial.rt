//! The store of a contract before its first transaction.

ghost use Rattle.std.specs.Prelude.{◌≡◌, ◌<◌, ◌≤◌, length, IfOk, OnOk};
ghost use Rattle.ecf_lang.specs.Store.{with_writes};
ghost use Rattle.ecf_lang.specs.Genesis.{field_cells, object_cells, genesis};
ghost use Rattle.ecf_lang.specs.declared.limits.TheConstants.{MAX_OBJECTS, MAX_FIELDS};
ghost use Rattle.ecf_heap.specs.Numbered.{IsWithinLimits};

use crate::heap::Heap;
use ecf_lang::cell::Cell;
use ecf_lang::typed::{Typed, TypedField, TypedObject};
use std::alloc::{AllocError, Global};

/// The heap of a contract's initial values.
pub fn genesis(alloc: Global, typed: &Typed) -> Result<Heap, AllocError>
    requires { IsWithinLimits typed.now }
    ensures { IfOk result (λ heap. heap ≡ genesis typed.now) }
{
    let mut heap = Heap::empty(alloc);
    for (number, object) in typed.objects.as_slice().iter().enumerate() {
        put_object(&mut heap, number as u8, object)?;
    }
    Ok(heap)
}

// Writes the initial values of an object's fields and maps.
fn put_object(heap: &mut Heap, number: u8, object: &TypedObject) -> Result<(), AllocError>
    requires { length object.now.fields ≤ MAX_FIELDS }
    ensures { OnOk result (heap.new ≡ with_writes heap.old (object_cells (record { 0 = number; 1 = object.now }))) }
{
    for (field_number, field) in object.fields.as_slice().iter().enumerate() {
        put_field(heap, number, field_number as u8, field)?;
    }
    Ok(())
}

// Writes the initial values of a field or map.
fn put_field(heap: &mut Heap, object: u8, number: u8, field: &TypedField) -> Result<(), AllocError>
    ensures { OnOk result (heap.new ≡ with_writes heap.old (field_cells object (record { 0 = number; 1 = field.now }))) }
{
    for (key, value) in field.first.as_slice() {
        let cell = Cell {
            object,
            field: number,
            key: *key,
        };
        heap.put(cell, *value)?;
    }
    Ok(())
}
