//! Transactions that are run and judged, and then each object's invocations run alone, told in a line of text.

ghost use Rattle.std.specs.Prelude.{◌≤◌, length};
ghost use Rattle.ecf_isolate.specs.Committed.{IsOfCommitted};
ghost use Rattle.ecf_isolate_tests.specs.Answered.{HasAnswered};
ghost use Rattle.ecf_lang.specs.Store.{Store};
ghost use Rattle.ecf_lang.specs.declared.limits.TheConstants.{MAX_OBJECTS};
ghost use Rattle.ecf_lang.specs.declared.tx.Tx.{Tx};

use crate::texts::{Call, at_least_one, is_within_limits, tx_of, typed};
use ecf_heap::{Heap, genesis};
use ecf_isolate::{Alone, AloneRun, run_alone};
use ecf_judge::{Verdict, judge};
use ecf_lang::cell::{Cell, CellRead};
use ecf_lang::receipt::Order;
use ecf_lang::run::{Outcome, Run, Step};
use ecf_lang::tx::Tx;
use ecf_lang::typed::Typed;
use ecf_machine::run;
use ecf_online::MAX_STEPS;
use ecf_verdicts::{approves_free, approves_orders, committed_where_free};
use std::alloc::{AllocError, Global};
use std::test::Fail;

/// What transactions of so many calls each come to on a contract, each run on what those before it left: the answer, and for
/// each object with several invocations what these do when each is run alone.
pub(crate) fn told(
    alloc: Global,
    contract: &str,
    size: usize,
    calls: &[Call],
) -> Result<String, Fail> {
    let contract = typed(alloc, contract)?;
    told_of(alloc, &contract, size, calls)
}

/// The same of a contract's numbered form.
fn told_of(alloc: Global, contract: &Typed, size: usize, calls: &[Call]) -> Result<String, Fail> {
    if !is_within_limits(contract) {
        return Err(AllocError)?;
    }
    let mut fields = genesis(alloc, contract)?;
    let mut text = String::new(alloc);
    for calls in calls.chunks(at_least_one(size)) {
        let tx = tx_of(alloc, calls)?;
        tell_transaction(alloc, &mut text, contract, &mut fields, &tx)?;
    }
    Ok(text)
}

/// Runs a transaction on fields, which change where it commits.
fn tell_transaction(
    alloc: Global,
    text: &mut String,
    contract: &Typed,
    fields: &mut Heap,
    tx: &Tx,
) -> Result<(), AllocError>
    requires { length contract.now.objects ≤ MAX_OBJECTS }
{
    let run = run(alloc, contract, fields, tx)?;
    match run.outcome {
        Outcome::Answer(answer) => tell_answered(alloc, text, contract, fields, tx, &run, answer),
        _ => text.push_str("no answer. "),
    }
}

/// Judges a run that answered, and tells of its objects where it commits.
fn tell_answered(
    alloc: Global,
    text: &mut String,
    contract: &Typed,
    fields: &mut Heap,
    tx: &Tx,
    run: &Run,
    answer: u128,
) -> Result<(), AllocError>
    requires { HasAnswered contract.now fields.old tx.now run.now }
{
    approves_free();
    approves_orders();
    committed_where_free();
    fields.know_store();
    if run.steps.len() > MAX_STEPS as usize {
        return Err(AllocError);
    }
    write!(text, "{answer}")?;
    match judge(alloc, run.steps.as_slice())? {
        Verdict::Vetoed { .. } => text.push_str(" vetoed. "),
        Verdict::Approved(orders) => {
            for order in orders.as_slice() {
                tell_object(alloc, text, contract, fields, run, order)?;
            }
            fields.write(run.writes.as_slice())?;
            text.push_str(". ")
        }
    }
}

/// Runs an object's invocations alone in their named order, and tells of them.
fn tell_object(
    alloc: Global,
    text: &mut String,
    contract: &Typed,
    fields: &Heap,
    run: &Run,
    order: &Order,
) -> Result<(), AllocError>
    requires { (store : Store) × (tx : Tx) ×
        IsOfCommitted contract.now store tx order.now.object fields.now run.now.invocations order.now.invs }
{
    let alone = run_alone(
        alloc,
        contract,
        order.object,
        fields,
        run.invocations.as_slice(),
        order.invs.as_slice(),
    )?;
    tell_alone(alloc, text, order.object, fields, run, &alone)
}

/// Tells of the runs, and of the object's cells after them; and of what isn't as it was in the transaction.
fn tell_alone(
    alloc: Global,
    text: &mut String,
    object: u8,
    fields: &Heap,
    run: &Run,
    alone: &Alone<Heap>,
) -> Result<(), AllocError> {
    write!(text, "; object {object}:")?;
    for lone in alone.runs.as_slice() {
        tell_run(alloc, text, run, lone)?;
    }
    let after = after(alloc, fields, alone)?;
    let expected = expected(alloc, fields, run, object)?;
    tell_cells(text, object, after.as_slice(), expected.as_slice())
}

/// Tells of an invocation's run by itself: its answer, and how many steps it took.
fn tell_run(
    alloc: Global,
    text: &mut String,
    run: &Run,
    lone: &AloneRun,
) -> Result<(), AllocError> {
    let steps = lone.steps.len();
    write!(text, " {} gives {} in {steps},", lone.inv, lone.answer)?;
    if !is_as_recorded(alloc, run, lone)? {
        text.push_str(" unlike the run,")?;
    }
    Ok(())
}

/// Whether it has the recorded answer and the recorded steps.
fn is_as_recorded(alloc: Global, run: &Run, lone: &AloneRun) -> Result<bool, AllocError> {
    let mut steps: Vec<Step> = Vec::new(alloc);
    for step in run.steps.as_slice() {
        if step.inv == lone.inv {
            steps.push(*step)?;
        }
    }
    Ok(match run.invocations.get(usize::from(lone.inv)) {
        Some(recorded) => {
            recorded.answer == Some(lone.answer) && steps.as_slice() == lone.steps.as_slice()
        }
        None => false,
    })
}

/// All cells after the runs.
fn after(
    alloc: Global,
    fields: &Heap,
    alone: &Alone<Heap>,
) -> Result<Vec<(Cell, u128)>, AllocError> {
    let writes = alone.after.writes(alloc)?;
    let heap = fields.with(writes.as_slice())?;
    heap.cells(alloc)
}

/// All cells as they have to be: the object's as after the transaction, each other one as before it.
fn expected(
    alloc: Global,
    fields: &Heap,
    run: &Run,
    object: u8,
) -> Result<Vec<(Cell, u128)>, AllocError> {
    let mut heap = fields.copy()?;
    for (cell, value) in run.writes.as_slice() {
        if cell.object == object {
            heap.put(*cell, *value)?;
        }
    }
    heap.cells(alloc)
}

/// Tells an object's cells.
fn tell_cells(
    text: &mut String,
    object: u8,
    after: &[(Cell, u128)],
    expected: &[(Cell, u128)],
) -> Result<(), AllocError> {
    text.push_str(" left")?;
    for (cell, value) in after {
        if cell.object == object {
            write!(text, " {}[{}] = {value}", cell.field, cell.key)?;
        }
    }
    if after != expected {
        text.push_str(" unlike the run")?;
    }
    Ok(())
}
