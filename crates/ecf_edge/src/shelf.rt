//! Shelves of named contents: the trait, and two shelves in memory.
ghost use Rattle.std.specs.Prelude.{◌≡◌, ◌≢◌, ℕ, ◌≤◌, ◌<◌, List, Option, length, vec_len, Some, IfOk, IsErrOf};
ghost use Rattle.std.specs.Option.{option_copied};
ghost use Rattle.ecf_edge.specs.Plan.{fresh_plan};
ghost use Rattle.ecf_edge.specs.Shelf.{Files, HoldsUnder, HoldsNoneUnder, HoldsMoreUnder, faults_after_fetch, long_answers_after_fetch, absences_after_fetch, files_of, content_of, fault_of_incomplete, Answers, due_from, due_from_faulty, fresh_shelf, after_fetch, after_faulty_fetch};
ghost use Rattle.ecf_edge.specs.declared.shelf.Fetch.TheVariants.{NoMemory};

use crate::plan::{FaultPlan, count_up};
use crate::source::Incomplete;
use std::alloc::{AllocError, Global};
use std::marker::Model;
use thiserror::Error;

/// Why a fetch gave no content.
#[derive(Clone, Copy, Debug, PartialEq, Eq, Error)]
pub enum Fetch {
    /// The fetch failed. Nothing more is known of it.
    #[error("the fetch failed")]
    Failed,
    /// Nothing is held under the name.
    #[error("nothing has that name")]
    Missing,
    /// The content has more bytes than were allowed.
    #[error("the content is too long")]
    TooLong,
    /// There was no memory for the content.
    #[error("out of memory")]
    NoMemory,
}

impl From<AllocError> for Fetch {
    ghost from_gives = { λ _ fault. fault ≡ NoMemory };

    fn from(_: AllocError) -> Self {
        Fetch::NoMemory
    }
}

impl From<Incomplete> for Fetch {
    ghost from_gives = { λ cause fault. fault ≡ fault_of_incomplete cause };

    fn from(cause: Incomplete) -> Self {
        match cause {
            Incomplete::OverLimit => Fetch::TooLong,
            Incomplete::Failed => Fetch::Failed,
        }
    }
}

/// Contents that are fetched whole, by name.
pub trait Shelf {
    /// The named contents, where the shelf tells them.
    ghost contents: { Self → Option Files };

    /// How many fetches have failed.
    ghost faults: { Self → ℕ };

    /// How many fetches found a content that was too long.
    ghost long_answers: { Self → ℕ };

    /// How many fetches found nothing under the name.
    ghost absences: { Self → ℕ };

    /// The whole content under `name`, of at most `most` bytes. No fetch changes the contents, whatever it answers.
    fn fetch(&mut self, alloc: Global, name: &str, most: usize) -> Result<Vec<u8>, Fetch>
        ensures keeps { contents self.new ≡ contents self.old }
        ensures whole { IfOk result (λ v. HoldsUnder (contents self.old) name.now v.items) }
        ensures bound { IfOk result (λ v. length v.items ≤ most) }

        ensures too_long { IsErrOf result Fetch.TooLong → HoldsMoreUnder (contents self.old) name.now most }
        ensures missing { IsErrOf result Fetch.Missing → HoldsNoneUnder (contents self.old) name.now }

        ensures faults_counted { faults self.new ≡ faults_after_fetch (faults self.old) result }
        ensures long_answers_counted { long_answers self.new ≡ long_answers_after_fetch (long_answers self.old) result }
        ensures absences_counted { absences self.new ≡ absences_after_fetch (absences self.old) result };
}

/// The content of the first of the files that has the name.
fn content_under<'a>(files: &'a [(String, Vec<u8>)], name: &str) -> Option<&'a [u8]>
    ensures { option_copied result ≡ content_of (files_of files.now) name.now }
{
    for (file, content) in files {
        if file.as_str() == name {
            return Some(content);
        }
    }
    None
}

/// A shelf in memory none of whose fetches fails. Of two files with one name the first counts.
#[derive(Debug, Drop)]
pub struct SureShelf {
    files: Vec<(String, Vec<u8>)>,
    long_answers: u64,
    absences: u64,
}

impl Model for SureShelf {
    ghost use Rattle.ecf_edge.specs.Shelf.{CountingShelf, files_of};

    ghost Value = { CountingShelf };

    ghost view = { λ s. record { files = files_of s.files.items; long_answers = s.long_answers; absences = s.absences } };
}

impl SureShelf {
    /// A shelf of these files, each a name and its content.
    pub fn new(files: Vec<(String, Vec<u8>)>) -> Self
        ensures { result ≡ fresh_shelf (files_of files.items) }
    {
        SureShelf {
            files,
            long_answers: 0,
            absences: 0,
        }
    }
}

impl Shelf for SureShelf {
    ghost contents = { λ s. Some s.files };

    ghost faults = { λ _. 0 };

    ghost long_answers = { λ s. s.long_answers };

    ghost absences = { λ s. s.absences };

    fn fetch(&mut self, alloc: Global, name: &str, most: usize) -> Result<Vec<u8>, Fetch>
        ensures answer { Answers result (due_from self.old name.now most) }
        ensures after { self.new ≡ after_fetch self.old (due_from self.old name.now most) }

        ensures keeps { self.new.files ≡ self.old.files }
        ensures whole { IfOk result (λ v. HoldsUnder (Some self.old.files) name.now v.items) }
        ensures bound { IfOk result (λ v. length v.items ≤ most) }
        ensures too_long { IsErrOf result Fetch.TooLong → HoldsMoreUnder (Some self.old.files) name.now most }
        ensures missing { IsErrOf result Fetch.Missing → HoldsNoneUnder (Some self.old.files) name.now }
        ensures never_failed { result ≢ Err Fetch.Failed }
        ensures long_answers_counted { self.new.long_answers ≡ long_answers_after_fetch self.old.long_answers result }
        ensures absences_counted { self.new.absences ≡ absences_after_fetch self.old.absences result }
    {
        let Some(content) = content_under(&self.files, name) else {
            count_up(&mut self.absences);
            return Err(Fetch::Missing);
        };
        if content.len() > most {
            count_up(&mut self.long_answers);
            return Err(Fetch::TooLong);
        }
        Ok(content.to_vec(alloc)?)
    }
}

/// A shelf in memory of whose fetches some fail, as planned. Of two files with one name the first counts.
#[derive(Debug, Drop)]
pub struct MemShelf {
    shelf: SureShelf,
    plan: FaultPlan,
}

impl Model for MemShelf {
    ghost use Rattle.ecf_edge.specs.Shelf.{FaultyShelf};

    ghost Value = { FaultyShelf };

    ghost view = { λ s. record { shelf = s.shelf; plan = s.plan } };
}

impl MemShelf {
    /// A shelf of these files, each a name and its content. The fetches whose numbers, from 1, stand in `fails` fail.
    pub fn new(files: Vec<(String, Vec<u8>)>, fails: Vec<u64>) -> Self
        ensures files { result.shelf ≡ fresh_shelf (files_of files.items) }
        ensures plan { result.plan ≡ fresh_plan fails.items }
    {
        MemShelf {
            shelf: SureShelf::new(files),
            plan: FaultPlan::new(fails),
        }
    }

    /// How many fetches have failed. The count stands still at the greatest `u64`.
    pub fn faults(&self) -> u64
        ensures { result ≡ self.now.plan.faults }
    {
        self.plan.faults()
    }
}

impl Shelf for MemShelf {
    ghost contents = { λ s. Some s.shelf.files };

    ghost faults = { λ s. s.plan.faults };

    ghost long_answers = { λ s. s.shelf.long_answers };

    ghost absences = { λ s. s.shelf.absences };

    fn fetch(&mut self, alloc: Global, name: &str, most: usize) -> Result<Vec<u8>, Fetch>
        ensures answer { Answers result (due_from_faulty self.old name.now most) }
        ensures after { self.new ≡ after_faulty_fetch self.old (due_from_faulty self.old name.now most) }

        ensures keeps { self.new.shelf.files ≡ self.old.shelf.files }
        ensures whole { IfOk result (λ v. HoldsUnder (Some self.old.shelf.files) name.now v.items) }
        ensures bound { IfOk result (λ v. length v.items ≤ most) }

        ensures too_long { IsErrOf result Fetch.TooLong → HoldsMoreUnder (Some self.old.shelf.files) name.now most }
        ensures missing { IsErrOf result Fetch.Missing → HoldsNoneUnder (Some self.old.shelf.files) name.now }

        ensures faults_counted { self.new.plan.faults ≡ faults_after_fetch self.old.plan.faults result }
        ensures long_answers_counted { self.new.shelf.long_answers ≡ long_answers_after_fetch self.old.shelf.long_answers result }
        ensures absences_counted { self.new.shelf.absences ≡ absences_after_fetch self.old.shelf.absences result }
    {
        if self.plan.call_fails() {
            return Err(Fetch::Failed);
        }
        self.shelf.fetch(alloc, name, most)
    }
}
