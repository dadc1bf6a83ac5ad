//! Invocations run one after the other, each on the fields that the one before left.

ghost use Rattle.std.specs.Prelude.{◌≡◌, slice_get, IfOk, OnOk};
ghost use Rattle.ecf_heap.specs.Overlaid.{store_of};
ghost use Rattle.ecf_isolate.specs.Committed.{DoAsRecorded, IsOfCommitted};
ghost use Rattle.ecf_isolate.specs.RunEnds.{end_of, end_of_lone, AreLoneRuns};
ghost use Rattle.ecf_lang.specs.Alone.{alone};
ghost use Rattle.ecf_lang.specs.Store.{Store, with_writes};
ghost use Rattle.ecf_lang.specs.declared.run.Outcome.TheVariants.{Answer};
ghost use Rattle.ecf_lang.specs.declared.tx.Tx.{Tx};
ghost use Rattle.ecf_removed.specs.LoneRuns.{lone_runs};
ghost use Rattle.ecf_verdicts.specs.SerialLaws.{IsAnswer};

use ecf_heap::Overlay;
use ecf_lang::cell::{Cell, CellRead};
use ecf_lang::run::{Invocation, Outcome, Step};
use ecf_lang::typed::Typed;
use ecf_machine::run_one;
use ecf_removed::{callbacks_removed, each_repeats_next, lone_runs_go_on};
use sqlite_items::Items;
use std::alloc::{AllocError, Global};

/// An invocation's run by itself.
#[derive(Debug, Drop)]
pub struct AloneRun {
    /// The invocation's number in the transaction.
    pub inv: u16,
    pub answer: u128,
    /// Its steps in order, under its number.
    pub steps: Items<Step>,
}

/// What invocations came to, each run alone.
#[derive(Drop)]
pub struct Alone<'a, R: CellRead> {
    /// Their runs, one after the other.
    pub runs: Items<AloneRun>,
    /// The fields after the last, over those before the first.
    pub after: Overlay<'a, R>,
}

/// Runs the invocations of an object alone, one after the other in the order that is named for it: each with its own
/// arguments and its own fuel, its recorded answers in place of external calls, on the fields that the one
/// before left. They have to be those of a committed run that began with these fields in the object's cells. Each then
/// does what it did. Fails only for want of memory.
pub fn run_alone<'a, R: CellRead>(
    alloc: Global,
    typed: &Typed,
    object: u8,
    before: &'a R,
    invocations: &[Invocation],
    order: &[u16],
) -> Result<Alone<'a, R>, AllocError>
    requires { (store : Store) × (tx : Tx) ×
        IsOfCommitted typed.now store tx object (R.store before.now) invocations.now order.now }
    ensures runs { IfOk result (λ alone.
        AreLoneRuns (lone_runs typed.now invocations.now order.now (R.store before.entry.now)) alone.runs (store_of alone.after)) }
    ensures removed { IfOk result (λ alone. (store : Store) (tx : Tx) →
        IsOfCommitted typed.now store tx object (R.store before.entry.now) invocations.now order.now →
        DoAsRecorded typed.now store tx object (R.store before.entry.now) alone.runs (store_of alone.after)) }
{
    before.know_store();
    each_repeats_next();
    lone_runs_go_on();
    callbacks_removed();
    let mut after = Overlay::new(alloc, before);
    let mut runs = Items::new(alloc);
    for inv in order {
        let invocation = &invocations[*inv as usize];
        let run = run_next(alloc, typed, &mut after, *inv, invocation)?;
        runs.push(run)?;
    }
    Ok(Alone { runs, after })
}

/// Runs an invocation alone on these fields, which then are those after it.
fn run_next<R: CellRead>(
    alloc: Global,
    typed: &Typed,
    fields: &mut Overlay<R>,
    inv: u16,
    invocation: &Invocation,
) -> Result<AloneRun, AllocError>
    requires { IsAnswer (alone typed.now inv invocation.now (store_of fields.old)).outcome }
    ensures run { IfOk result (λ run.
        end_of run ≡ end_of_lone (record { 0 = inv; 1 = alone typed.now inv invocation.now (store_of fields.old) })) }
    ensures fields { OnOk result (store_of fields.new ≡ (alone typed.now inv invocation.now (store_of fields.old)).fields) }
{
    let lone = run_one(alloc, typed, &*fields, inv, invocation)?;
    write_all(fields, lone.writes.as_slice())?;
    Ok(AloneRun {
        inv,
        answer: answer_of(lone.outcome),
        steps: lone.steps,
    })
}

/// Writes cells, one after the other.
fn write_all<R: CellRead>(
    fields: &mut Overlay<R>,
    writes: &[(Cell, u128)],
) -> Result<(), AllocError>
    ensures { OnOk result (store_of fields.new ≡ with_writes (store_of fields.old) writes.now) }
{
    for (cell, value) in writes {
        fields.set(*cell, *value)?;
    }
    Ok(())
}

/// The answer of a run that answered.
fn answer_of(outcome: Outcome) -> u128
    requires { IsAnswer outcome }
    ensures { outcome ≡ Answer result }
{
    match outcome {
        Outcome::Answer(value) => value,
        _ => unreachable!(),
    }
}
