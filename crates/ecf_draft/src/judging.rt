//! What is decided on a run: its receipt, and what it writes where it commits.

ghost use Rattle.std.specs.Prelude.{◌≡◌, ◌≤◌, length, IfOk};
ghost use Rattle.ecf_core.specs.Drafted.{IsRightOn, committed_writes};
ghost use Rattle.ecf_draft.specs.Drafts.{decision_of, judgement_in};
ghost use Rattle.ecf_lang.specs.Fits.{Fits};
ghost use Rattle.ecf_lang.specs.Meaning.{kept_run, run as meaning_of};
ghost use Rattle.ecf_lang.specs.Store.{IsRising};
ghost use Rattle.ecf_lang.specs.declared.limits.TheConstants.{MAX_OBJECTS};
ghost use Rattle.ecf_online.specs.declared.limits.TheConstants.{MAX_STEPS};
ghost use Rattle.ecf_verdicts.specs.Receipts.{receipt_of, receipt_of_answer};
ghost use Rattle.ecf_verdicts.specs.Verdicts.{verdict};

use ecf_core::{draft_is_judged, run_is_drafted};
use ecf_judge::{Verdict, judge};
use ecf_lang::cell::{Cell, CellRead};
use ecf_lang::receipt::Receipt;
use ecf_lang::run::{Outcome, Run, Step};
use ecf_lang::tx::Tx;
use ecf_lang::typed::Typed;
use ecf_laws::{fuel_within_limit, reads_are_stored, steps_are_charged, writes_rise};
use ecf_machine::run;
use sqlite_items::Items;
use std::alloc::{AllocError, Global};

/// What was decided on a run.
#[derive(Debug, Drop)]
pub struct Decision {
    pub receipt: Receipt,
    /// The cells that the run read from the store with their values, in the order of first read.
    pub reads: Items<(Cell, u128)>,
    /// The cells to be written with their values, rising; none unless the receipt is that of a commit.
    pub writes: Items<(Cell, u128)>,
}

/// Runs a transaction on a store and judges its run at once: for a store that nobody changes meanwhile. Fails only for want
/// of memory.
pub fn run_and_judge<R: CellRead>(
    alloc: Global,
    typed: &Typed,
    store: &R,
    tx: &Tx,
) -> Result<Decision, AllocError>
    requires fits { Fits typed.now tx.now }
    requires objects { length typed.now.objects ≤ MAX_OBJECTS }
    ensures decision { IfOk result (λ d. d ≡ decision_of (kept_run (meaning_of typed.now (R.store store.now) tx.now))) }
    ensures right { IfOk result (λ d. IsRightOn typed.now (judgement_in tx.now d) (R.store store.now)) }
    ensures rising { IfOk result (λ d. IsRising d.writes) }
{
    store.know_store();
    run_is_drafted();
    draft_is_judged();
    reads_are_stored();
    writes_rise();
    steps_are_charged();
    fuel_within_limit();
    let run = run(alloc, typed, store, tx)?;
    let receipt = receipt_of(alloc, &run)?;
    Ok(decided(alloc, run, receipt))
}

// What is decided on a run that has this receipt.
pub(crate) fn decided(alloc: Global, run: Run, receipt: Receipt) -> Decision
    requires { receipt ≡ receipt_of run.outcome run.fuel run.steps }
    ensures { result ≡ decision_of run }
{
    let Run {
        outcome: _,
        fuel: _,
        steps: _,
        invocations: _,
        reads,
        writes,
    } = run;
    let writes = committed(alloc, &receipt, writes);
    Decision {
        receipt,
        reads,
        writes,
    }
}

// The writes of a run that is committed; of another, none.
fn committed(alloc: Global, receipt: &Receipt, writes: Items<(Cell, u128)>) -> Items<(Cell, u128)>
    ensures { result ≡ committed_writes receipt.now writes }
{
    match receipt {
        Receipt::Committed { .. } => writes,
        _ => Items::new(alloc),
    }
}

// The receipt of a run; only one that answered is judged.
pub(crate) fn receipt_of(alloc: Global, run: &Run) -> Result<Receipt, AllocError>
    requires { length run.now.steps ≤ MAX_STEPS }
    ensures { IfOk result (λ receipt. receipt ≡ receipt_of run.now.outcome run.now.fuel run.now.steps) }
{
    match run.outcome {
        Outcome::Answer(answer) => receipt_of_answer(alloc, answer, run.fuel, run.steps.as_slice()),
        Outcome::Reverted(cause) => Ok(Receipt::Reverted {
            cause,
            fuel: run.fuel,
        }),
        Outcome::OutOfFuel => Ok(Receipt::OutOfFuel { fuel: run.fuel }),
    }
}

// The receipt of a run that answered: committed with its orders, or vetoed.
fn receipt_of_answer(
    alloc: Global,
    answer: u128,
    fuel: u32,
    steps: &[Step],
) -> Result<Receipt, AllocError>
    requires { length steps.now ≤ MAX_STEPS }
    ensures { IfOk result (λ receipt. receipt ≡ receipt_of_answer answer fuel (verdict steps.now)) }
{
    match judge(alloc, steps)? {
        Verdict::Approved(orders) => Ok(Receipt::Committed {
            answer,
            fuel,
            orders,
        }),
        Verdict::Vetoed { object, at, cycle } => Ok(Receipt::Vetoed {
            object,
            at,
            cycle,
            fuel,
        }),
    }
}
