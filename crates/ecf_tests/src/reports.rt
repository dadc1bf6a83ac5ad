//! Runs of contracts from their texts, in lines of text. Each contract runs over a store that holds 7 in the first field.

use crate::stored::stored_first;
use crate::texts::typed;
use ecf_lang::cell::Cell;
use ecf_lang::limits::MAX_OBJECTS;
use ecf_lang::run::{Invocation, Outcome, Run, Step};
use ecf_lang::tx::{Tx, TxCall};
use ecf_lang::typed::Typed;
use ecf_machine::{Lone, run, run_one};
use sqlite_items::Items;
use std::alloc::{AllocError, Global};
use std::process::Abort;
use std::test::Fail;

/// What the first field holds.
const STORED: u128 = 7;

/// More fuel than a row of charges takes.
const AMPLE: u32 = 200;

/// A transaction of calls of the first object's methods, each with one argument.
fn tx_of(alloc: Global, fuel: u32, calls: &[(u16, u128)]) -> Result<Tx, AllocError> {
    let mut list = Items::new(alloc);
    for (method, arg) in calls {
        list.push(TxCall {
            object: 0,
            method: *method,
            args: Items::from_slice(alloc, &[*arg])?,
        })?;
    }
    Ok(Tx {
        submitter: 0,
        fuel,
        calls: list,
    })
}

/// The run of calls of the first object's methods.
pub(crate) fn run_of(
    rt: &impl Abort,
    alloc: Global,
    contract: &Typed,
    fuel: u32,
    calls: &[(u16, u128)],
) -> Result<Run, AllocError> {
    assert!(rt; contract.objects.len() <= MAX_OBJECTS);
    let tx = tx_of(alloc, fuel, calls)?;
    run(alloc, contract, &stored_first(alloc, STORED)?, &tx)
}

/// The run alone of an invocation of the first object's first method with the argument 1, under the number 9.
pub(crate) fn lone_of(
    alloc: Global,
    contract: &Typed,
    fuel: u32,
    answers: &[u128],
) -> Result<Lone, AllocError> {
    let invocation = Invocation {
        object: 0,
        method: 0,
        args: Items::from_slice(alloc, &[1])?,
        answer: None,
        answers: Items::from_slice(alloc, answers)?,
        own_fuel: fuel,
        undone: false,
    };
    run_one(
        alloc,
        contract,
        &stored_first(alloc, STORED)?,
        9,
        &invocation,
    )
}

/// A cell as its object and field, with its key where that isn't 0, and a value.
fn write_cell(text: &mut String, cell: Cell, value: u128) -> Result<(), AllocError> {
    write!(text, "{}.{}", cell.object, cell.field)?;
    if cell.key > 0 {
        write!(text, "[{}]", cell.key)?;
    }
    write!(text, "={value}")
}

fn write_cells(text: &mut String, word: &str, cells: &[(Cell, u128)]) -> Result<(), AllocError> {
    if !cells.is_empty() {
        write!(text, "; {word}")?;
    }
    for (cell, value) in cells {
        text.push(' ')?;
        write_cell(text, *cell, *value)?;
    }
    Ok(())
}

/// Each step as its invocation's number, `r` or `w`, and the cell.
fn write_steps(text: &mut String, steps: &[Step]) -> Result<(), AllocError> {
    for step in steps {
        let kind = if step.write { 'w' } else { 'r' };
        write!(text, " {}{kind}", step.inv)?;
        write_cell(text, step.cell, step.value)?;
    }
    Ok(())
}

/// What an invocation was charged, what its calls answered, and what it answered.
fn write_invocation(text: &mut String, invocation: &Invocation) -> Result<(), AllocError> {
    write!(text, "; own {}", invocation.own_fuel)?;
    for answer in invocation.answers.as_slice() {
        write!(text, " heard {answer}")?;
    }
    if let Some(answer) = invocation.answer {
        write!(text, " gave {answer}")?;
    }
    if invocation.undone {
        text.push_str(" undone")?;
    }
    Ok(())
}

/// Steps, reads and writes.
fn write_effects(text: &mut String, run: &Run) -> Result<(), AllocError> {
    write_steps(text, run.steps.as_slice())?;
    write_cells(text, "reads", run.reads.as_slice())?;
    write_cells(text, "writes", run.writes.as_slice())
}

/// Outcome, steps, reads and writes.
pub(crate) fn effects_of(alloc: Global, run: &Run) -> Result<String, AllocError> {
    let mut text = format!(in alloc; "{:?}", run.outcome)?;
    write_effects(&mut text, run)?;
    Ok(text)
}

/// Outcome, fuel, steps, reads, writes and invocations.
pub(crate) fn report_of(alloc: Global, run: &Run) -> Result<String, AllocError> {
    let mut text = format!(in alloc; "{:?} fuel {}", run.outcome, run.fuel)?;
    write_effects(&mut text, run)?;
    for invocation in run.invocations.as_slice() {
        write_invocation(&mut text, invocation)?;
    }
    Ok(text)
}

/// The report of a transaction of calls of the first object's methods.
pub(crate) fn report_in(
    rt: &impl Abort,
    alloc: Global,
    text: &str,
    fuel: u32,
    calls: &[(u16, u128)],
) -> Result<String, Fail> {
    let contract = typed(alloc, text)?;
    let run = run_of(rt, alloc, &contract, fuel, calls)?;
    Ok(report_of(alloc, &run)?)
}

/// The same of a run alone.
pub(crate) fn lone_report_of(alloc: Global, lone: &Lone) -> Result<String, AllocError> {
    let mut text = format!(in alloc; "{:?}", lone.outcome)?;
    write_steps(&mut text, lone.steps.as_slice())?;
    write_cells(&mut text, "writes", lone.writes.as_slice())?;
    Ok(text)
}

/// The outcome of a run, and how many invocations it opened and undid.
pub(crate) fn counts_of(alloc: Global, run: &Run) -> Result<String, AllocError> {
    let mut undone = 0u32;
    for invocation in run.invocations.as_slice() {
        if invocation.undone {
            undone = undone.saturating_add(1);
        }
    }
    format!(in alloc;
        "{:?} opened {} undone {undone}",
        run.outcome,
        run.invocations.len()
    )
}

/// What all invocations of a run were charged.
fn charged(run: &Run) -> u32 {
    let mut fuel = 0u32;
    for invocation in run.invocations.as_slice() {
        fuel = fuel.saturating_add(invocation.own_fuel);
    }
    fuel
}

/// A charge, behind a blank unless it is the first, and the letters of the steps behind so many earlier ones.
fn write_charge(
    text: &mut String,
    charge: u32,
    steps: &[Step],
    earlier: usize,
) -> Result<(), AllocError> {
    if charge > 0 {
        if !text.is_empty() {
            text.push(' ')?;
        }
        write!(text, "{charge}")?;
    }
    for (place, step) in steps.iter().enumerate() {
        if place >= earlier {
            text.push(if step.write { 'w' } else { 'r' })?;
        }
    }
    Ok(())
}

/// The charges of a call of the first method with the argument 1, each with a letter for each step that is done before the
/// next one; then how the call ends. A charge is found as what is paid more with one unit of fuel more.
pub(crate) fn charges_of(
    rt: &impl Abort,
    alloc: Global,
    contract: &Typed,
) -> Result<String, AllocError> {
    let mut text = String::new(alloc);
    let mut paid = 0u32;
    let mut steps = 0;
    for fuel in 0..AMPLE {
        let run = run_of(rt, alloc, contract, fuel, &[(0, 1)])?;
        let now = charged(&run);
        write_charge(
            &mut text,
            now.saturating_sub(paid),
            run.steps.as_slice(),
            steps,
        )?;
        paid = now;
        steps = run.steps.len();
        if run.outcome != Outcome::OutOfFuel {
            write!(text, " {:?}", run.outcome)?;
            return Ok(text);
        }
    }
    Ok(text)
}
