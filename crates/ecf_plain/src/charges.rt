//! What is charged, read and written in the open frame.

ghost use Rattle.std.specs.Prelude.{◌≡◌, ◌+◌, OnOk};
ghost use Rattle.ecf_plain.specs.Leads.{Does, charged, constant, fetched, written};

use crate::stopped::Stopped;
use ecf_lang::cell::{Cell, CellRead};
use ecf_lang::costs::{LEAF, READ, WRITE};
use ecf_progress::{OpenFrame, RunState};

/// Charges fuel in the frame's invocation.
#[inline(always)]
pub(crate) fn charge<'s, R: CellRead>(
    state: &mut RunState<'s, R>,
    frame: &OpenFrame,
    fuel: u32,
) -> Result<(), Stopped>
    ensures does { Does frame.now (charged fuel) result tt state.old state.new }
    ensures falls { OnOk result (state.new.run.fuel + fuel ≡ state.old.run.fuel) }
{
    if state.pay(frame.inv, fuel) {
        return Ok(());
    }
    Err(Stopped::OutOfFuel)
}

/// Gives a value that is there, with its charge.
#[inline(always)]
pub(crate) fn constant<'s, R: CellRead>(
    state: &mut RunState<'s, R>,
    frame: &OpenFrame,
    value: u128,
    out: &mut u128,
) -> Result<(), Stopped>
    ensures { Does frame.now (constant value) result out.new state.old state.new }
{
    charge(state, frame, LEAF)?;
    *out = value;
    Ok(())
}

/// Charges for a read of the frame's object, and reads.
pub(crate) fn fetch<'s, R: CellRead>(
    state: &mut RunState<'s, R>,
    frame: &OpenFrame,
    field: u8,
    key: u128,
    out: &mut u128,
) -> Result<(), Stopped>
    ensures { Does frame.now (fetched field key) result out.new state.old state.new }
{
    charge(state, frame, READ)?;
    let cell = cell_of(frame, field, key);
    match state.read(frame.inv, cell) {
        Ok(value) => {
            *out = value;
            Ok(())
        }
        Err(_) => Err(Stopped::OutOfMemory),
    }
}

/// Charges for a write of the frame's object, and writes.
pub(crate) fn put<'s, R: CellRead>(
    state: &mut RunState<'s, R>,
    frame: &OpenFrame,
    field: u8,
    key: u128,
    value: u128,
) -> Result<(), Stopped>
    ensures { Does frame.now (written field key value) result tt state.old state.new }
{
    charge(state, frame, WRITE)?;
    let cell = cell_of(frame, field, key);
    match state.write(frame.inv, cell, value) {
        Ok(()) => Ok(()),
        Err(_) => Err(Stopped::OutOfMemory),
    }
}

/// A cell of the frame's object.
fn cell_of(frame: &OpenFrame, field: u8, key: u128) -> Cell
    ensures { result ≡ record { object = frame.now.object; field = field; key = key } }
{
    Cell {
        object: frame.object,
        field,
        key,
    }
}
