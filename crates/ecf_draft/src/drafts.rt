//! Work, and drafts: works that were run, with their runs.

ghost use Rattle.std.specs.Prelude.{◌≡◌, ◌≤◌, length};
ghost use Rattle.ecf_online.specs.declared.limits.TheConstants.{MAX_STEPS};

use ecf_lang::run::Run;
use ecf_lang::tx::TxRef;
use ecf_versions::Snapshot;
use std::marker::Model;

/// A row that is to be run, on the store as it was when the work was given.
#[derive(Drop)]
pub struct Work {
    /// The place of the transaction among all, from 0.
    pub row: u32,
    /// The number under which the row was claimed.
    pub ticket: u32,
    /// How many stale commits there were under this ticket.
    pub tries: u8,
    pub tx: TxRef,
    pub snapshot: Snapshot,
}

/// A work that was run, with its run. To a contract: these two.
#[derive(Drop)]
pub struct Draft {
    work: Work,
    run: Run,
}

impl Model for Draft {
    ghost use Rattle.std.specs.Prelude.{◌≤◌, length};
    ghost use Rattle.ecf_draft.specs.Drafts.{DraftedWork};
    ghost use Rattle.ecf_online.specs.declared.limits.TheConstants.{MAX_STEPS};

    ghost Value = { DraftedWork };

    ghost view = { λ d. record { work = d.work; run = d.run } };

    ghost invariant = { λ d. length d.run.steps ≤ MAX_STEPS };
}

impl Draft {
    // A work with the run that was kept of it.
    pub(crate) fn new(work: Work, run: Run) -> Draft
        requires { length run.steps ≤ MAX_STEPS }
        ensures work { result.work ≡ work }
        ensures run { result.run ≡ run }
    {
        Draft { work, run }
    }

    /// The work that was run.
    pub fn work(&self) -> &Work
        ensures { result.now ≡ self.now.work }
    {
        &self.work
    }

    /// The run of its transaction.
    pub fn run(&self) -> &Run
        ensures run { result.now ≡ self.now.run }
        ensures few { length result.now.steps ≤ MAX_STEPS }
    {
        &self.run
    }

    // The work and its run.
    pub(crate) fn into_parts(self) -> (Work, Run)
        ensures work { result.0 ≡ self.work }
        ensures run { result.1 ≡ self.run }
    {
        (self.work, self.run)
    }
}
