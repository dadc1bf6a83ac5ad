//! Runs a transaction, or an invocation alone: a machine of small tasks, equal to what the contract means.
#![tactic(auto)]

ghost use Rattle.std.specs.Prelude.{◌≡◌, ◌≤◌, length, IfOk};
ghost use Rattle.ecf_lang.specs.declared.limits.TheConstants.{MAX_OBJECTS};
ghost use Rattle.ecf_lang.specs.Alone.{alone};
ghost use Rattle.ecf_lang.specs.Meaning.{kept_run, run as meaning_of};
ghost use Rattle.ecf_progress.specs.Outcomes.{IsLone};

mod calls;
mod expressions;
mod machine;
mod setting;
mod statements;
mod task;

use ecf_lang::cell::CellRead;
use ecf_lang::limits::MAX_FRAMES;
use ecf_lang::run::{Invocation, Run};
use ecf_lang::tx::Tx;
use ecf_lang::typed::Typed;
pub use ecf_progress::Lone;
use ecf_progress::OpenFrame;
use machine::Machine;
use setting::{External, Setting};
use sqlite_items::Items;
use std::alloc::{AllocError, Global};
use task::{Doing, Task};

/// Runs a transaction on a contract and a store, which stays as it is: the run says what was read and what is to be
/// written. The reads stand in the order of first read, the writes rise by cell, and there are none unless the run
/// answered. Fails only for want of memory.
pub fn run<'a, R: CellRead>(
    alloc: Global,
    typed: &'a Typed,
    store: &'a R,
    tx: &'a Tx,
) -> Result<Run, AllocError>
    requires { length typed.now.objects ≤ MAX_OBJECTS }
    ensures { IfOk result (λ r. r ≡ kept_run (meaning_of typed.now (R.store store.now) tx.now)) }
{
    let setting = Setting {
        alloc,
        typed,
        external: External::Opens,
    };
    let frame = OpenFrame {
        object: 0,
        inv: 0,
        room: MAX_FRAMES,
    };
    let mut machine = Machine::new(alloc, store, tx.fuel, frame)?;
    machine.tasks.push(Task::Calls(tx.calls.as_slice()))?;
    let outcome = machine.finish(&setting, Doing::Give(0))?;
    let Machine {
        state,
        frame: _,
        locals: _,
        args: _,
        tasks: _,
    } = machine;
    state.into_run(alloc, tx.fuel, outcome)
}

/// Runs an invocation by itself on the fields of its object: with the arguments that it had, its own fuel as the limit,
/// and its recorded answers in place of each external call. It runs out of fuel where an answer is missing.
/// The steps are under its number; the writes rise by cell, and there are none unless it answered. Fails only for want
/// of memory.
pub fn run_one<'a, R: CellRead>(
    alloc: Global,
    typed: &'a Typed,
    store: &'a R,
    inv: u16,
    invocation: &'a Invocation,
) -> Result<Lone, AllocError>
    ensures { IfOk result (IsLone (alone typed.now inv invocation.now (R.store store.now))) }
{
    let setting = Setting {
        alloc,
        typed,
        external: External::Answers(invocation.answers.as_slice()),
    };
    let frame = OpenFrame {
        object: invocation.object,
        inv: 0,
        room: MAX_FRAMES,
    };
    let mut machine = Machine::new(alloc, store, invocation.own_fuel, frame)?;
    let args = Items::from_slice(alloc, invocation.args.as_slice())?;
    machine
        .state
        .begin(invocation.object, invocation.method, args)?;
    machine.args.open_with(invocation.args.as_slice())?;
    let first = machine.internal(&setting, invocation.method)?;
    let outcome = machine.finish(&setting, first)?;
    let Machine {
        state,
        frame: _,
        locals: _,
        args: _,
        tasks: _,
    } = machine;
    state.into_lone(alloc, inv, outcome)
}
