//! Running a work on its snapshot.

ghost use Rattle.std.specs.Prelude.{◌≡◌, ◌≤◌, length, IfErr, IfOk};
ghost use Rattle.std.specs.Arc.{arc_value};
ghost use Rattle.ecf_draft.specs.Drafts.{IsDraftedUnder, drafted};
ghost use Rattle.ecf_lang.specs.Fits.{Fits};
ghost use Rattle.ecf_lang.specs.Meaning.{kept_run, run as meaning_of};
ghost use Rattle.ecf_lang.specs.declared.limits.TheConstants.{MAX_OBJECTS};

use crate::drafts::{Draft, Work};
use ecf_core::run_is_drafted;
use ecf_lang::run::Run;
use ecf_lang::typed::Typed;
use ecf_laws::{fuel_within_limit, steps_are_charged};
use ecf_machine::run;
use std::alloc::{AllocError, Global};

/// Runs the work's transaction on its snapshot. At `Err`, for want of memory, the work comes back as it was.
pub fn draft(alloc: Global, typed: &Typed, work: Work) -> Result<Draft, (Work, AllocError)>
    requires fits { Fits typed.now (arc_value work.tx) }
    requires objects { length typed.now.objects ≤ MAX_OBJECTS }
    ensures drafted { IfOk result (λ d. d ≡ drafted typed.now work) }
    ensures under_contract { IfOk result (IsDraftedUnder typed.now) }
    ensures kept { IfErr result (λ e. e.0 ≡ work) }
{
    run_is_drafted();
    steps_are_charged();
    fuel_within_limit();
    match run_of(alloc, typed, &work) {
        Ok(run) => Ok(Draft::new(work, run)),
        Err(error) => Err((work, error)),
    }
}

// The run of the work's transaction on its snapshot.
fn run_of(alloc: Global, typed: &Typed, work: &Work) -> Result<Run, AllocError>
    requires { length typed.now.objects ≤ MAX_OBJECTS }
    ensures { IfOk result (λ r. r ≡ kept_run (meaning_of typed.now work.now.snapshot (arc_value work.now.tx))) }
{
    run(alloc, typed, &work.snapshot, &work.tx)
}
